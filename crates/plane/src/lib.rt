// Document 01's plane: its checks, and its edges in their order.
#![tactic(auto)]

// What is made once and read at each edge.
mod table;

// The edge of a cell, with its thresholds.
mod edge;

// Parts of the cells.
mod part;

// The order in which the edges run.
mod order;

// The checks 1 to 8, and 1 to 7 alone.
mod check;

// The run of a checked plane, and the entry.
mod run;

pub use check::{plane_check, settings_check};
pub use order::sweep;
pub use part::Part;
pub use run::{deblock_plane, run_noted, run_plane};
pub use table::table_of;
