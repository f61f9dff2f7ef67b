// The byte lists that C lends: the step table, and the window of one segment.
#![tactic(auto)]

// The step table.
pub mod table;

// The window: its samples, its edge, and its samples put back.
pub mod window;
