// The cases of thresholds: each line's question to `combine_thresholds`, and whether the answer is the line's.
#![tactic(auto)]

// One case of the stream.
mod case;

pub use case::replay;
