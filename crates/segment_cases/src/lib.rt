// The cases of lone segments: each line's segment through `filter_lone`, and whether answer, counts and plane are the line's.
#![tactic(auto)]

// One case of the stream.
mod case;

pub use case::replay;
