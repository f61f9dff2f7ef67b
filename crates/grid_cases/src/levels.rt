// One qindex grid: what the entry is asked, and what the stream says that it answers.
use cases::{Due, Line};
use qindex::qindex_grid::build_qindex_grid;
use rules::settings::QindexGrid;
use tally::Outcome;

fn settings(line: &mut Line) -> Option<QindexGrid> {
    Some(QindexGrid {
        cols: line.size()?,
        rows: line.size()?,
        ssx: line.size()?,
        ssy: line.size()?,
        sbcols: line.size()?,
    })
}

// A line after its kind: the entry's answer and its list, held against the stream's.
pub fn replay(mut line: Line) -> Option<Outcome> {
    let mut entries = [0u16; 16384];
    let mut cells = [0u16; 16384];
    let s = settings(&mut line)?;
    let sbq = line.list(&mut entries);
    let lent = line;
    let qindex = line.list(&mut cells);
    let told = line.answer()?;
    let answer = build_qindex_grid(sbq, qindex, s);
    let due = Due::new(told, lent, line);
    let same = tally::same(answer, told.number, told.place) && due.only(qindex);
    Some(Outcome::new(told.number, same))
}
