// Ticket 1: a plane's run that writes a record of its edges into a lent buffer.
#![tactic(auto)]

// How many edges are marked.
mod count;

// The checks, and the entry.
mod entry;

pub use entry::record_plane;
