// One record that is run again: what the entry is asked, and what the stream says that it answers.
use crate::answered::same;
use cases::{Due, Line};
use replay::replay_plane;
use rules::settings::Replay;
use tally::Outcome;

fn settings(line: &mut Line) -> Option<Replay> {
    Some(Replay {
        cols: line.large()?,
        rows: line.large()?,
        stride: line.large()?,
        depth: line.number()?,
    })
}

// A line after its kind: the entry's answer and its plane, held against the stream's.
pub fn replay(mut line: Line) -> Option<Outcome> {
    let mut bytes = [0u8; 65536];
    let mut marks = [0u8; 16384];
    let mut samples = [0u16; 131072];
    let s = settings(&mut line)?;
    let record = line.list(&mut bytes);
    let keep = line.list(&mut marks);
    let lent = line;
    let plane = line.list(&mut samples);
    let told = line.counted()?;
    let answer = replay_plane(plane, record, keep, s);
    let same = same(answer, told) && Due::new(told, lent, line).only(plane);
    Some(Outcome::new(told.number, same))
}
