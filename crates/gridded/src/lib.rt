// What the grid of a frame's luma or chroma is made from: sizes in their ranges, and where its lists stand among the settings' short numbers.
#![tactic(auto)]

// Whether a frame's sizes are in range.
pub mod sizes;

// Where the lists of luma or of chroma stand.
pub mod spans;
