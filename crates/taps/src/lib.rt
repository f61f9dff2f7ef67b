// Document 01, "Taps": the edge difference D of a line, and how far it moves each sample. The rules stand in rules' Taps and Ramp.
#![tactic(auto)]

// M and W, read at a width less one.
pub mod tables;

// D of a line, limited, as a sign and a size.
pub mod difference;

// A sample moved with D before the edge, against it after the edge.
pub mod moves;
