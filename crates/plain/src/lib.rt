// The plain engine: a plane's edges in an order that can be audited by eye, with document 01's answer, counts and samples.
#![tactic(auto)]

// The checks, and both sweeps over the whole plane.
mod engine;

pub use engine::deblock_plane_plain;
