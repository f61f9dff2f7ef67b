// A frame deblocked by what the settings of a picture ask for, and where it was refused.
#![tactic(auto)]

// Over grids of its own.
pub mod deblocking;

// The place of a refusal.
mod places;

// By the settings' own lists.
pub mod lists;
