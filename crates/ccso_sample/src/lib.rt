// One sample of the gated CCSO offsets: the settings as counts, its taps and their classes, and the sample with its offset.
#![tactic(auto)]

// The signed settings and offsets as counts.
pub mod counts;

// Where a tap stands, and its class.
pub mod taps;

// One sample of the target.
pub mod sample;
