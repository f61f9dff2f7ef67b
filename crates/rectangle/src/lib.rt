// Ticket 7: keep marks set over a rectangle of cells. The rules stand in rules' Keep.
#![tactic(auto)]

// The rectangle, cut to the plane.
mod cut;

// The checks, and the entry.
mod entry;

pub use entry::keep_rectangle;
