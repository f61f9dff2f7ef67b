// The gated CCSO offsets of a plane.
#![tactic(auto)]

// The rows of the target.
pub mod rows;

// The checks in their order.
pub mod check;

// The entry.
pub mod apply;
