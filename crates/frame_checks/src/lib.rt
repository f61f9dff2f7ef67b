// A frame's settings, plane by plane, and document 01's checks of a frame before its grids are built.
#![tactic(auto)]

// The settings of a frame's planes and grids.
pub mod parts;

// Sizes, subsampling and strides: refusal 2.
mod sizes;

// Lengths of the lent lists: refusal 3.
mod list_lengths;

// Deltas and caps: refusal 5.
mod deltas;

// Lists of tile starts: refusal 5, too.
mod starts;

// Leaves: refusal 9.
mod leaves;

// Keep marks: refusal 6.
mod keep;

// The checks in their order: 1, 2, 3, 4, 5, 9, 6.
pub mod early;
