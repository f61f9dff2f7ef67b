// What the settings of a picture ask for: the filters' own settings, CCSO over the planes, the cells that are kept, and where a refusal stands.
#![tactic(auto)]

// A list of one entry for each kind of settings.
pub mod kinds;

// How long their lists are.
pub mod rooms;

// The frame, and the CCSO settings of a plane.
pub mod filters;

// Where the lists of the settings begin and end.
pub mod lists;

// Where a refusal stands, by plane or list, row and column.
pub mod places;

// CCSO over one plane, and over all three.
pub mod gated;

// The cells that are kept, as marks of a plane.
pub mod kept;
