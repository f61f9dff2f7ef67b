// The cases of planes: planes, recorded planes, records that are run again, and planes whose rows are filled call by call.
#![tactic(auto)]

// Whether a plane's answer is the line's.
mod answered;

// One plane through both engines.
mod whole;

// One recorded plane.
mod noted;

// One record that is run again.
mod again;

// A plane's settings and grid, handed on to what its kind asks.
mod asked;

// A line of any kind.
mod case;

pub use case::{replay, replay_rows};
