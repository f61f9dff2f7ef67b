// What an edge is, as far as its plane's grid alone says.
#![tactic(auto)]

// Whether a column starts a tile.
pub mod starts;

// The edge of a cell: whether it is there, the cell before it, and its pair of lengths.
pub mod pair;
