// Document 01's "Width choice": how many samples of an edge are filtered.
#![tactic(auto)]

// How far three samples in a row are from a straight line: dm2, d1, dm1 and d0.
pub mod bends;

// How far the sample k steps out is from the line through the first two.
pub mod ramps;

// The tests at the distances 4, 6 and 8.
pub mod distances;

// The width choice.
pub mod choice;
