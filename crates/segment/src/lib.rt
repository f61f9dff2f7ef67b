// Document 01, "Segment": one edge of a lent plane, in either direction. The rules stand in rules' Segment.
#![tactic(auto)]

// What filtering an edge answers.
pub mod outcome;

// The samples of an edge's four lines.
mod read;

// The widths of an edge, and what goes with them.
mod widths;

// What an edge stores.
mod store;

// One edge by its offsets, and by its place in a plane.
mod segment;

pub use outcome::Outcome;
pub use segment::filter_edge;

// The parts of an edge that one next to kept cells is made of too.
pub use segment::{filter_segment, level, upright};
pub use widths::Widths;
