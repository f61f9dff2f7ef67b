// The cases of frames: each line's frame through `deblock_frame`, and whether answer, counts, planes and grids are the line's.
#![tactic(auto)]

// The settings and the lists that a call only reads.
mod read;

// The lists that a call may change.
mod lists;

// One frame of the stream.
mod case;

pub use case::replay;
