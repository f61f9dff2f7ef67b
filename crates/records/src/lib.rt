// Tickets 1 and 2: the entries of a record of edges. The record's form stands in rules' Record.
#![tactic(auto)]

// One entry: put at a place, and read there.
mod entry;

// A record while it is written.
mod writing;

pub use entry::{edge_at, put_edge};
pub use writing::{note, put_header};
