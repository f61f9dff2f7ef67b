// The cases of CCSO: each line's picture through `apply_edge_gated`, and whether answer and target are the line's.
#![tactic(auto)]

// One picture of the stream.
mod case;

pub use case::replay;
