// Document 01's checks 2, 3, 6, 7 and 8 of a plane, with document 02's check of its tile starts.
#![tactic(auto)]

// Sizes and lengths: refusals 2 and 3.
pub mod sizes;

// Marks and size indices: refusal 6.
pub mod grid;

// Tile starts: refusal 5.
pub mod starts;

// Whether every edge has room: refusal 7.
pub mod room;

// Samples over top: refusal 8.
pub mod samples;
