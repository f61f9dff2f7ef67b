// A text's lines, words and decimal numbers: where they end, a word as one number, and numbers read into memory that the caller lends.
//
// Nothing public has a `requires`. A cursor that is not good stays so: a program reads a whole line and looks once.
#![tactic(auto)]

// The end of a line, of its content, of a run of spaces, of a word.
pub mod place;

// A word as one number.
pub mod spell;

// How many words there are.
pub mod count;

// A place in a line, and the number that stands there.
mod number;

// A number as a type of its own: unsigned up to a limit, or an i32; an answer's numbers.
mod typed;

// What the lists of a line are made of.
mod entry;

// Lists of numbers, into lent lists or held against them.
mod lists;

pub use entry::Entry;
pub use lists::{Held, Listed, Steps, Two, hold_list, read_i32s, read_list, read_two, set_steps};
pub use number::{Cursor, Number, ended, next_number};
pub use typed::{
    Answered, Signed, Unsigned, read_answer, read_counted, read_signed, read_unsigned,
};
