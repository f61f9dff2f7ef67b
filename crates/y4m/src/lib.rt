// A YUV4MPEG2 picture: what its header line says, and its samples as bytes.
#![tactic(auto)]

// The header line and the line before a frame.
pub mod header;

// The names of the formats.
pub mod format;

// Rows of samples from bytes and back.
pub mod samples;
