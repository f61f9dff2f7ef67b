// A stream of cases: whole lines, read from an input into memory that the caller lends, and what several kinds of case read and compare.
#![tactic(auto)]

// Whole lines in a lent buffer.
mod stream;

// One line as it is read.
mod asked;

// Lists that a line has wider than a call.
mod narrow;

// Lists after a call, held against the line's.
mod due;

pub use asked::Line;
pub use due::Due;
pub use narrow::{read_leaves, read_offsets};
pub use stream::{NoLine, Stream};
