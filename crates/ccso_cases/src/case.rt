// One picture: what the entry is asked, and what the stream says that it answers.
use cases::{Due, Line, read_offsets};
use ccso::apply::apply_edge_gated;
use rules::settings::Ccso;
use tally::Outcome;

fn settings(line: &mut Line) -> Option<Ccso> {
    Some(Ccso {
        width: line.size()?,
        height: line.size()?,
        ssx: line.size()?,
        ssy: line.size()?,
        depth: line.number()?,
        scale: line.number()?,
        lo: line.signed()?,
        hi: line.signed()?,
        below: line.number()?,
        within: line.number()?,
        above: line.number()?,
        dx0: line.signed()?,
        dy0: line.signed()?,
        dx1: line.signed()?,
        dy1: line.signed()?,
        bandlog: line.number()?,
    })
}

// A line of kind 1, with settings of the Rust, or 2, with others: both are replayed alike.
pub fn replay(mut line: Line) -> Option<Outcome> {
    if line.unsigned(2)? == 0 {
        return None;
    }
    let mut luma = [0u16; 65536];
    let mut target = [0u16; 65536];
    let mut flags = [0u8; 256];
    let mut offsets = [0i8; 256];
    let s = settings(&mut line)?;
    let luma = line.list(&mut luma);
    let lent = line;
    let target = line.list(&mut target);
    let flags = line.list(&mut flags);
    let offsets = read_offsets(&mut line, &mut offsets);
    let told = line.answer()?;
    let answer = apply_edge_gated(luma, target, flags, offsets, s);
    let due = Due::new(told, lent, line);
    let same = tally::same(answer, told.number, told.place) && due.only(target);
    Some(Outcome::new(told.number, same))
}
