// Document 01's thresholds: q and side of an edge from the qindex of its two blocks.
#![tactic(auto)]

// The index of a block, and its limits.
pub mod index;

// The side table.
pub mod side_table;

// The side threshold of an index.
pub mod side;

// The AC step of an index, and its q threshold.
pub mod steps;

// The checks: depth, step table, deltas.
pub mod tests;

// Two blocks' thresholds, and the entry.
pub mod combine;

// The thresholds of blocks by qindex, made once for many edges.
pub mod by_qindex;
