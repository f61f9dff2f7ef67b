// A picture in memory: its files, its planes, and what its size decides where the settings do not say.
#![tactic(auto)]

// Files by their names: a text, a line, the name of a part.
pub mod files;

// Planes, read with padding, packed, and written.
pub mod planes;

// The shapes of a picture's planes.
pub mod shapes;

// Leaves outside the picture, a header's values twice.
pub mod outside;

// Numbers, steps, qindex entries and leaves that the settings leave out.
pub mod defaults;
