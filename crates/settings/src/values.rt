// The numbers of one line, into a lent list from a place on.
ghost use Rattle.std.specs.Prelude.{◌≡◌, ◌≤◌, ℕ, List, leb, length};
ghost use Rattle.laws.specs.Choose.{pick};
ghost use Rattle.settings.specs.Values.{read_signed, read_up_to, read_offset, below_of, above_of, offset_of, offset_rest, skipped, goes_on, taken_to};

use text::place::spaces;
use text::{Cursor, Number};

// The place after the last number, and what is left of the line.
#[derive(Clone, Copy)]
pub struct Taken {
    pub at: usize,
    pub rest: Cursor,
}

// A number, and what is left of the line.
#[derive(Clone, Copy)]
pub struct Read<T> {
    pub value: T,
    pub rest: Cursor,
}

// A sort of numbers, by the type that holds one.
pub trait Sort: Copy {
    ghost use Rattle.text.specs.declared.number.Cursor.{Cursor};
    ghost use Rattle.settings.specs.declared.values.Read.{Read};

    // What stands at a place of a line.
    ghost read_of: { List ℕ → Cursor → Read Self };

    fn read(text: &[u8], c: Cursor) -> Read<Self>
        ensures { result ≡ read_of text.now c };
}

// A number with a sign.
impl Sort for i32 {
    ghost read_of = { read_signed };

    fn read(text: &[u8], c: Cursor) -> Read<i32> {
        let n = text::read_signed(text, c);
        Read {
            value: n.value,
            rest: n.rest,
        }
    }
}

// A number of two bytes.
impl Sort for u16 {
    ghost read_of = { read_up_to 65535 };

    fn read(text: &[u8], c: Cursor) -> Read<u16> {
        let n = text::read_unsigned(text, c, 65535);
        Read {
            value: n.value as u16,
            rest: n.rest,
        }
    }
}

// A number of four bytes.
impl Sort for u32 {
    ghost read_of = { read_up_to 4294967295 };

    fn read(text: &[u8], c: Cursor) -> Read<u32> {
        let n = text::read_unsigned(text, c, 4294967295);
        Read {
            value: n.value as u32,
            rest: n.rest,
        }
    }
}

// A flag, 0 or 1.
impl Sort for u8 {
    ghost read_of = { read_up_to 1 };

    fn read(text: &[u8], c: Cursor) -> Read<u8> {
        let n = text::read_unsigned(text, c, 1);
        Read {
            value: n.value as u8,
            rest: n.rest,
        }
    }
}

// An offset.
impl Sort for i8 {
    ghost read_of = { read_offset };

    fn read(text: &[u8], c: Cursor) -> Read<i8> {
        let n = text::next_number(text, c);
        Read {
            value: offset(n.negative, n.size),
            rest: after_offset(n),
        }
    }
}

// The same place of a line after its spaces.
fn skip(text: &[u8], c: Cursor) -> Cursor
    ensures { result ≡ skipped text.now c }
{
    let at = c.at;
    let end = c.end;
    if text.len() < end {
        return c;
    }
    if end < at {
        return c;
    }
    Cursor {
        at: spaces(text, at, end),
        end,
        good: c.good,
    }
}

// Whether a number is to be read.
fn more(c: Cursor) -> bool
    ensures { result ≡ goes_on c }
{
    c.good && c.at < c.end
}

// An offset below zero. What is below -10 is none, and stands as the lowest number, as `below_of` says of the lent list.
fn below(size: usize) -> i8
    ensures { result ≡ below_of size }
{
    if 10 < size {
        return -128;
    }
    0 - size as i8
}

// An offset from zero on; what is above 7 is none, and stands as the highest number.
fn above(size: usize) -> i8
    ensures { result ≡ above_of size }
{
    if 7 < size {
        return 127;
    }
    size as i8
}

// An offset by its sign and size.
fn offset(negative: bool, size: usize) -> i8
    ensures { result ≡ offset_of negative size }
{
    if negative {
        return below(size);
    }
    above(size)
}

// Whether a size is that of an offset, -10..7.
fn is_offset(negative: bool, size: usize) -> bool
    ensures { result ≡ pick negative (leb size 10) (leb size 7) }
{
    if negative {
        return size <= 10;
    }
    size <= 7
}

// What is left of the line after an offset: nothing is read after one that is none.
fn after_offset(n: Number) -> Cursor
    ensures { result ≡ offset_rest n }
{
    let rest = n.rest;
    if is_offset(n.negative, n.size) {
        return rest;
    }
    let end = rest.end;
    Cursor {
        at: end,
        end,
        good: false,
    }
}

// The numbers of a line, into a list from a place on.
pub fn put<T: Sort>(text: &[u8], c: Cursor, list: &mut [T], from: usize, end: usize) -> Taken
    ensures from_le_at { from ≤ result.at }
    ensures list_len_unchanged { length list.new ≡ length list.old }
    ensures result_value { record { list = list.new; left = result } ≡ taken_to text.now (T.read_of text.now) list.old from end c }
{
    let stop = end.min(list.len());
    let mut rest = skip(text, c);
    for at in from..stop {
        if !more(rest) {
            return Taken { at, rest };
        }
        let n = T::read(text, rest);
        list[at] = n.value;
        rest = skip(text, n.rest);
    }
    Taken {
        at: stop.max(from),
        rest,
    }
}
