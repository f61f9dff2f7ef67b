// Ticket 2: a record read, checked, and its edges run in order on a plane. The rules stand in rules' Record and Replay.
#![tactic(auto)]

// The checks on the record.
mod check;

// The entry.
mod run;

pub use check::{count, entry, record_check};
pub use run::replay_plane;
