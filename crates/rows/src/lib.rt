// Ticket 8: a plane's rows as they are filled. Each call is told how many rows are filled now, runs the edges that no later row reaches, and says which rows are final.
#![tactic(auto)]

// What the counts of filled rows say.
mod counts;

// The checks of a call.
mod check;

// The entry: the checks, and the edges of the band that is filled now.
mod entry;

pub use entry::deblock_rows;
