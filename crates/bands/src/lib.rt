// Two sweeps over a band of a plane's rows of cells: the rows that a call fills, or all of them.
#![tactic(auto)]

// How far down the horizontal edges go.
mod ready;

// Both sweeps.
mod band;

pub use band::run_band;
