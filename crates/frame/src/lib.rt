// A whole frame: its early checks, its grids built, checked and used to filter luma, then U and V.
#![tactic(auto)]

// The planes filtered by built grids.
mod filter;

// The entry.
pub mod frame;
