// A line of any kind.
use crate::{again, asked, noted, whole};
use cases::Line;
use tally::Outcome;

// A line of planes: 2 is a plane, 3 a recorded plane, 4 a record that is run again.
pub fn replay(mut line: Line, steps: &[u32]) -> Option<Outcome> {
    match line.unsigned(4)? {
        2 => asked::replay(line, steps, whole::replay),
        3 => asked::replay(line, steps, noted::replay),
        4 => again::replay(line),
        _ => None,
    }
}

// A line of rows, of the one kind 2: a plane and its calls.
pub fn replay_rows(mut line: Line, steps: &[u32]) -> Option<Outcome> {
    if line.unsigned(2)? != 2 {
        return None;
    }
    asked::replay(line, steps, rows_cases::replay)
}
