// What is said of settings or of a frame that is refused: number, meaning, place and the settings' line.
#![tactic(auto)]

// The lines of the answer.
pub mod say;

// Leaves that begin outside the picture.
pub mod inside;

// A frame that was refused.
pub mod frames;
