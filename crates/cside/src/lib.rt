// What C and Rust call: document 01's two exported functions, and the entries.
#![tactic(auto)]

// The published AC steps.
pub mod steps;

// Both thresholds of an edge.
pub mod two_blocks;

// One segment on a window.
pub mod window;

// One plane.
pub mod planes;

// One plane, in the plain order.
pub mod plain_planes;

// One plane whose edges are recorded.
pub mod recorded_planes;

// One plane whose rows come as they are filled.
pub mod filled_rows;

// A record that is run again.
pub mod replays;

// The grids of a plane.
pub mod qindex_grids;
pub mod tx_grids;
pub mod tx_records;

// Keep marks over a rectangle of cells.
pub mod rectangles;

// The gated CCSO offsets.
pub mod gated_offsets;

// A whole frame.
pub mod frames;
