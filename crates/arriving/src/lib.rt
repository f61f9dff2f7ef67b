// A picture's plane as its rows arrive: read, filtered and written band by band.
#![tactic(auto)]

// Rows from one file and to another.
pub mod carry;

// Why a plane did not pass.
pub mod passed;

// The bands of a plane that is deblocked.
mod banded;

// A plane by the settings.
pub mod planes;
