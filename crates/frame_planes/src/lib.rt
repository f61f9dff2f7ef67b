// The planes of a frame whose early checks are accepted: their grids built, checked and used, where they are filtered.
#![tactic(auto)]

// The grid of luma or of chroma from the leaves and the superblocks.
pub mod build;

// The checks of built grids and planes: refusals 7 and 8.
pub mod late;

// The planes run.
pub mod run;
