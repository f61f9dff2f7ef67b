// Document 01, "Segment alone": one edge of a lent plane on any numbers, its checks in their order. The rules stand in rules' Lone.
#![tactic(auto)]

// The lone segment's checks, and its entry.
mod lone;

pub use lone::filter_lone;
