// A line of any kind.
use crate::{kept, levels, tx};
use cases::Line;
use tally::Outcome;

// A line: 1 is a TU grid, 2 a qindex grid, 3 keep marks over a rectangle.
pub fn replay(mut line: Line) -> Option<Outcome> {
    match line.unsigned(3)? {
        1 => tx::replay(line),
        2 => levels::replay(line),
        3 => kept::replay(line),
        _ => None,
    }
}
