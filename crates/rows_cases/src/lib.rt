// The cases of rows: a plane whose rows are filled call by call, once its settings and grid are read, and whether answers and samples are the line's.
#![tactic(auto)]

// Samples moved and compared.
mod samples;

// What every call on a plane is asked with.
mod grid;

// One call: what is done before it, what it is asked, and what the stream says that it answers.
mod call;

// All calls of a plane.
mod calls;

pub use calls::replay;
pub use grid::Grid;
