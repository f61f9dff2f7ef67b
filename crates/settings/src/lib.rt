// A settings file: lines of a name and numbers, read into lists. docs/SETTINGS.md says what each name means.
#![tactic(auto)]

// The kinds of settings, and what was expected.
pub mod kinds;

// The names, and where the numbers of each go.
pub mod names;

// The numbers of one line.
mod values;

// From line to line.
mod walk;

// One line, and the whole text.
pub mod file;

// Which line has a setting.
pub mod lines;
