// Document 02, ticket 7: one edge of a plane with kept cells. The rules stand in rules' Segment.
#![tactic(auto)]

// Which samples lie in kept cells.
mod marks;

// The window of an edge, as the rules write it.
mod window;

// One edge, of which kept samples are read and not stored.
mod kept;

pub use kept::filter_marked;
