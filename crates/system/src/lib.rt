// What a program takes of the system: bytes that come in and go out, files by their names, its words, and whether somebody watches.
#![tactic(auto)]

// Bytes from what reads, and to what writes.
pub mod bytes;

// Files, the three ends that a program starts with, and its words.
pub mod files;
