// One TU grid: what the entry is asked, and what the stream says that it answers.
use cases::{Due, Line, read_leaves};
use grid::tx_grid::build_tx_grid;
use rules::settings::TuGrid;
use tally::Outcome;

fn settings(line: &mut Line) -> Option<TuGrid> {
    Some(TuGrid {
        cols: line.size()?,
        rows: line.size()?,
        ssx: line.size()?,
        ssy: line.size()?,
        capw: line.size()?,
        caph: line.size()?,
    })
}

// The lists after the leaves: the entry's answer and its lists, held against the stream's.
fn replay_lists(mut line: Line, s: TuGrid, leaves: &[u16], skips: &[u16]) -> Option<Outcome> {
    let mut vedge = [0u8; 16384];
    let mut hedge = [0u8; 16384];
    let mut sqw = [0u8; 16384];
    let mut sqh = [0u8; 16384];
    let mut keep = [0u8; 16384];
    let lent = line;
    let vedge = line.list(&mut vedge);
    let hedge = line.list(&mut hedge);
    let sqw = line.list(&mut sqw);
    let sqh = line.list(&mut sqh);
    let keep = line.list(&mut keep);
    let told = line.answer()?;
    let answer = build_tx_grid(leaves, skips, vedge, hedge, sqw, sqh, keep, s);
    let mut due = Due::new(told, lent, line);
    let same = tally::same(answer, told.number, told.place)
        && due.is(vedge)
        && due.is(hedge)
        && due.is(sqw)
        && due.is(sqh)
        && due.is(keep)
        && due.ended();
    Some(Outcome::new(told.number, same))
}

// A line after its kind.
pub fn replay(mut line: Line) -> Option<Outcome> {
    let mut leaves = [0u16; 32768];
    let mut skips = [0u16; 32768];
    let s = settings(&mut line)?;
    let leaves = read_leaves(&mut line, &mut leaves);
    let skips = read_leaves(&mut line, &mut skips);
    replay_lists(line, s, leaves, skips)
}
