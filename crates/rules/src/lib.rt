// Document 01: the types that its rules speak of. The rules themselves stand in specs/, one file a section.
#![tactic(auto)]

// Depths 8, 10 and 12: top sample, highest qindex, side offset and shift.
pub mod depth;

// The refusals by name, and the answer of a check.
pub mod refusals;

// An edge, where it stands in a plane, and the samples of a line across it.
pub mod edge;

// How many samples were stored and changed.
pub mod counts;

// What each entry is told: settings by value.
pub mod settings;

// The state between two calls of a plane whose rows come as they are filled, and a call's answer.
pub mod rows;

// How long a frame's lent lists are.
pub mod lent;
