// The qindex grid of a plane, and its entry.
#![tactic(auto)]

// The qindex grid and its entry.
pub mod qindex_grid;
