// Keep marks over a rectangle: what the entry is asked, and what the stream says that it answers.
use cases::{Due, Line};
use rectangle::keep_rectangle;
use rules::settings::Keep;
use tally::Outcome;

fn settings(line: &mut Line) -> Option<Keep> {
    Some(Keep {
        cols: line.size()?,
        rows: line.size()?,
        row: line.size()?,
        col: line.size()?,
        h: line.size()?,
        w: line.size()?,
    })
}

// A line after its kind: the entry's answer and its marks, held against the stream's.
pub fn replay(mut line: Line) -> Option<Outcome> {
    let mut room = [0u8; 16384];
    let s = settings(&mut line)?;
    let lent = line;
    let keep = line.list(&mut room);
    let told = line.answer()?;
    let answer = keep_rectangle(keep, s);
    let due = Due::new(told, lent, line);
    let same = tally::same(answer, told.number, told.place) && due.only(keep);
    Some(Outcome::new(told.number, same))
}
