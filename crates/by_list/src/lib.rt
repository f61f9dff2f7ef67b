// Settings that C lends as a list of numbers: what the list itself is refused by, before an entry is called.
#![tactic(auto)]

// A plane's.
pub mod planes;

// A call's state on filled rows, beside them.
pub mod filled_rows;

// A frame's.
pub mod frames;

// Those of keep marks over a rectangle of cells.
pub mod rectangles;

// A TU grid's, where its leaves are records.
pub mod tx_records;
