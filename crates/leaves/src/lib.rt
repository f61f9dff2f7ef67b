// The TU grid from lent lists of leaf records, through the same rules as from four numbers a leaf.
#![tactic(auto)]

// A leaf record, how many good ones a list starts with, and painting a list of them.
pub mod records;

// The checks, and four lists that start at 0.
mod start;

// The entry.
pub mod tx_grid;
