// One recorded plane: its samples, its buffer, and what the stream says that it answers.
use cases::{Due, Line};
use recorded::record_plane;
use rows_cases::Grid;
use rules::counts::Visited;
use rules::refusals::Refusal;
use tally::Outcome;
use text::Answered;

// Whether a recorded plane's answer is the stream's: its record's length and both counts, or the refusal.
fn same(a: Result<Visited, Refusal>, told: Answered) -> bool {
    match a {
        Ok(v) => {
            told.number == 0
                && v.bytes == told.place
                && v.stored == told.stored
                && v.changed == told.changed
        }
        Err(r) => {
            told.stored == 0 && told.changed == 0 && tally::refused(r, told.number, told.place)
        }
    }
}

// A recorded plane after its grid: its answer, its plane and its buffer, held against the stream's.
pub fn replay(mut line: Line, g: Grid) -> Option<Outcome> {
    let mut samples = [0u16; 131072];
    let mut bytes = [0u8; 65536];
    let lent = line;
    let plane = line.list(&mut samples);
    let buffer = line.list(&mut bytes);
    let told = line.counted()?;
    let answer = record_plane(
        plane, buffer, g.vedge, g.hedge, g.sqw, g.sqh, g.qindex, g.tiles, g.keep, g.steps, g.s,
    );
    let mut due = Due::new(told, lent, line);
    let same = same(answer, told) && due.is(plane) && due.is(buffer) && due.ended();
    Some(Outcome::new(told.number, same))
}
