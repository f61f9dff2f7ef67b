// A stream of frames in its file, as every program over pictures has it: the header, the settings, the frames' planes in and out, and what is said of a bad one.
#![tactic(auto)]

// The lines that tell of a bad file.
pub mod say;

// Texts by the lines of a table.
pub mod table;

// The file and its header.
pub mod open;

// The settings' text.
pub mod take;

// The cells that the settings keep.
pub mod kept;

// The planes of a frame.
pub mod planes;

// What is the same for every frame.
pub mod job;

// What deblocking stored and changed.
pub mod counts;

// A frame's line and its planes from the file.
pub mod read;

// A frame's planes packed, and to the file.
pub mod save;

// How many samples of a frame changed.
pub mod changes;
