// Searches for document 01's first bad place, the test of a range, and (in proofs/) the laws by which any search or list of checks is shown to give the answer of the rules.
#![tactic(auto)]

// Samples over top, in a row and in a box of a plane.
mod over;
// A number in its range.
mod range;
// A byte for each cell: the largest, and keep marks.
mod marks;

pub use marks::{asked, bad_keep, highest};
pub use over::{row, samples};
pub use range::in_range;
