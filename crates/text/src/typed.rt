// The next number of a line as a type of its own, and the numbers of an answer.
ghost use Rattle.std.specs.Prelude.{◌≡◌, ◌≤◌, ◌<◌, SomeIff, FitsSigned};
ghost use Rattle.std.specs.Int.{w32};
ghost use Rattle.text.specs.Numbers.{number_at};
ghost use Rattle.text.specs.Typed.{failed, unsigned_of, signed, signed_of, answered_at, counted_at};

use crate::number::{Cursor, next_number};

// A number that is missing is no None: its line is given up in `rest`, and a program looks once, at the line's end.
#[derive(Clone, Copy)]
pub struct Unsigned {
    pub value: usize,
    pub rest: Cursor,
}

#[derive(Clone, Copy)]
pub struct Signed {
    pub value: i32,
    pub rest: Cursor,
}

// The answer that a line gives its case: the refusal's number, 0 for none, its place, and how many samples are stored and changed, 0 where the line counts none.
// A refusal is its number here, as the stream writes it, and the tally counts by that number.
#[derive(Clone, Copy)]
pub struct Answered {
    pub number: usize,
    pub place: usize,
    pub stored: usize,
    pub changed: usize,
    pub rest: Cursor,
}

// A cursor from which nothing more is read.
fn give_up(c: Cursor) -> Cursor
    ensures { result ≡ failed c }
{
    let end = c.end;
    Cursor {
        at: end,
        end,
        good: false,
    }
}

// The next number, where it has no sign and is at most `most`.
pub fn read_unsigned(text: &[u8], c: Cursor, most: usize) -> Unsigned
    ensures value { result ≡ unsigned_of most (number_at text.now c) }
    ensures value_le_most { result.value ≤ most }
{
    let n = next_number(text, c);
    let rest = n.rest;
    if n.negative || most < n.size {
        return Unsigned {
            value: 0,
            rest: give_up(rest),
        };
    }
    Unsigned {
        value: n.size,
        rest,
    }
}

// A sign and a size as an i32, where they are one.
fn narrow(negative: bool, size: usize) -> Option<i32>
    ensures { SomeIff result (FitsSigned w32 (signed negative size)) (signed negative size) }
{
    let size = i64::try_from(size).ok()?;
    i32::try_from(if negative { -size } else { size }).ok()
}

// The next number, where it is an i32.
pub fn read_signed(text: &[u8], c: Cursor) -> Signed
    ensures { result ≡ signed_of (number_at text.now c) }
{
    let n = next_number(text, c);
    let rest = n.rest;
    match narrow(n.negative, n.size) {
        Some(value) => Signed { value, rest },
        None => Signed {
            value: 0,
            rest: give_up(rest),
        },
    }
}

// The answer that a line gives.
pub fn read_answer(text: &[u8], c: Cursor) -> Answered
    ensures { result ≡ answered_at text.now c }
{
    let number = read_unsigned(text, c, 20);
    let place = read_unsigned(text, number.rest, 4294967295);
    Answered {
        number: number.value,
        place: place.value,
        stored: 0,
        changed: 0,
        rest: place.rest,
    }
}

// The answer of a line that counts samples: both counts stand after the place.
pub fn read_counted(text: &[u8], c: Cursor) -> Answered
    ensures { result ≡ counted_at text.now c }
{
    let t = read_answer(text, c);
    let stored = read_unsigned(text, t.rest, 4294967295);
    let changed = read_unsigned(text, stored.rest, 4294967295);
    Answered {
        stored: stored.value,
        changed: changed.value,
        rest: changed.rest,
        ..t
    }
}
