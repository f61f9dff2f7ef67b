// The TU grid of a plane, and its entry.
#![tactic(auto)]

// Painting leaves into the four lists.
pub mod paint;

// The checks, and lists that start at 0.
pub mod start;

// The TU grid and its entry.
pub mod tx_grid;
