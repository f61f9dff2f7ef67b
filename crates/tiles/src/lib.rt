// What both grids share: sizes, lengths and caps in range, a leaf's four numbers, and its tile on a plane's cells.
#![tactic(auto)]

// A leaf's four numbers: its flag, its sizes, and whether they are in range.
pub mod leaf;

// A leaf on a plane's cells.
pub mod tile;

// Sizes, lengths and caps in range.
pub mod tests;
