// Two records of edges side by side, for the support desk: the first edge that differs, or which record goes on.
#![tactic(auto)]

// The search, and what it says of both records.
mod beside;

// A pair's two lengths.
mod lengths_of;

pub use beside::{Difference, compare};
pub use lengths_of::{length_after, length_before};
