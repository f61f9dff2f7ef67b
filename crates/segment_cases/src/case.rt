// One case: what the entry is asked, and what the stream says that it answers and leaves.
use cases::{Due, Line};
use lone::filter_lone;
use rules::refusals::{Filtered, Refusal};
use rules::settings::Lone;
use tally::Outcome;
use text::Answered;

fn settings(line: &mut Line) -> Option<Lone> {
    Some(Lone {
        columns: line.size()?,
        rows: line.size()?,
        stride: line.size()?,
        depth: line.number()?,
        q: line.number()?,
        side: line.number()?,
        pair: line.size()?,
        dir: line.size()?,
        x: line.number()?,
        y: line.number()?,
    })
}

// Whether the width and both counts, or the refusal, are the stream's.
fn same(a: Result<Filtered, Refusal>, told: Answered) -> bool {
    match a {
        Ok(f) => {
            told.number == 0
                && f.width == told.place
                && f.stored == told.stored
                && f.changed == told.changed
        }
        Err(r) => {
            told.stored == 0 && told.changed == 0 && tally::refused(r, told.number, told.place)
        }
    }
}

// Room for the most samples that a case may lend; in a function of its own, since the check unfolds a literal of this length where it stands.
fn room() -> [u16; 524288] {
    [0; 524288]
}

// A line, of the one kind: the plane has room for the most samples that a case may lend, and an accepted case's place is its width.
pub fn replay(mut line: Line) -> Option<Outcome> {
    if line.unsigned(1)? != 1 {
        return None;
    }
    let mut room = room();
    let s = settings(&mut line)?;
    let lent = line;
    let plane = line.list(&mut room);
    let told = line.counted()?;
    let answer = filter_lone(plane, s);
    Some(Outcome {
        number: told.number,
        same: same(answer, told) && Due::new(told, lent, line).only(plane),
        width: (told.number == 0).then_some(told.place),
    })
}
