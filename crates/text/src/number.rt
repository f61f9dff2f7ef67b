// One number of a line: its digits, its sign, and where the next one stands.
ghost use Rattle.std.specs.Prelude.{◌≡◌, true, ◌+◌, ◌-◌, ◌*◌, ◌≤◌, ◌<◌, length};
ghost use Rattle.text.specs.Digits.{goes_on, read_digits};
ghost use Rattle.text.specs.Numbers.{nothing, past, ends, closed, signed_at, whole_line, number_at};

use crate::place::blank;

// A place in a line: its next byte, the line's end, and whether every number so far was there.
// A flag and no Option: a program reads a whole line and looks once, at its end.
#[derive(Clone, Copy)]
pub struct Cursor {
    pub at: usize,
    pub end: usize,
    pub good: bool,
}

// A number as it is written, and what follows it.
#[derive(Clone, Copy)]
pub struct Number {
    pub negative: bool,
    pub size: usize,
    pub rest: Cursor,
}

// What a run of digits says, and the place after it.
#[derive(Clone, Copy)]
pub struct Run {
    pub value: usize,
    pub next: usize,
}

// Below this a value takes one more digit.
const ROOM: usize = 100000000000000000;

// A digit, and there is room for it.
fn goes_on(b: u8, value: usize) -> bool
    ensures { result ≡ goes_on b value }
{
    b.is_ascii_digit() && value < ROOM
}

// A value with one digit more.
fn one_more(value: usize, b: u8) -> usize
    requires { goes_on b value ≡ true }
    ensures { (result ≡ 10 * value + (b - 48)) × (result < 1000000000000000000) }
{
    10 * value + usize::from(b - b'0')
}

// The digits from a place on, up to the first byte that is none.
fn digits(text: &[u8], from: usize, end: usize) -> Run
    requires { (from ≤ end) × (end ≤ length text.now) }
    ensures value { result ≡ read_digits text.now 0 from (end - from) }
    ensures from_le_next { (from ≤ result.next) × (result.next ≤ end) }
{
    let mut value = 0;
    for at in from..end {
        let b = text[at];
        if !goes_on(b, value) {
            return Run { value, next: at };
        }
        value = one_more(value, b);
    }
    Run { value, next: end }
}

// No number: the line is given up.
fn no_number(end: usize) -> Number
    ensures { result ≡ nothing end }
{
    Number {
        negative: false,
        size: 0,
        rest: Cursor {
            at: end,
            end,
            good: false,
        },
    }
}

// The place after a byte where it stands, else the same place.
fn past_byte(text: &[u8], at: usize, end: usize, b: u8) -> usize
    requires { (at ≤ end) × (end ≤ length text.now) }
    ensures value { result ≡ past text.now at end b }
    ensures lower_bound { (at ≤ result) × (result ≤ end) }
{
    if at < end && text[at] == b {
        return at + 1;
    }
    at
}

// The line's end, a space or a tab follows a number.
fn ends_here(text: &[u8], at: usize, end: usize) -> bool
    requires { end ≤ length text.now }
    ensures { result ≡ ends text.now at end }
{
    end <= at || blank(text[at])
}

// A number of at least one digit that ends where it should, or none.
fn close_number(text: &[u8], negative: bool, first: usize, run: Run, end: usize) -> Number
    requires { end ≤ length text.now }
    ensures { result ≡ closed text.now negative first run end }
{
    let next = run.next;
    if next <= first || !ends_here(text, next, end) {
        return no_number(end);
    }
    Number {
        negative,
        size: run.value,
        rest: Cursor {
            at: next,
            end,
            good: true,
        },
    }
}

// A minus sign, if there is one, and the digits.
fn signed_number(text: &[u8], start: usize, end: usize) -> Number
    requires { (start ≤ end) × (end ≤ length text.now) }
    ensures { result ≡ signed_at text.now start end }
{
    let first = past_byte(text, start, end, b'-');
    let run = digits(text, first, end);
    close_number(text, start < first, first, run, end)
}

// Whether a line was read whole.
pub fn ended(c: Cursor) -> bool
    ensures { result ≡ whole_line c }
{
    c.good && c.at == c.end
}

// The next number of a line.
pub fn next_number(text: &[u8], c: Cursor) -> Number
    ensures { result ≡ number_at text.now c }
{
    let Cursor { at, end, good } = c;
    if !good || text.len() < end || end < at {
        return no_number(end);
    }
    let start = past_byte(text, at, end, b' ');
    signed_number(text, start, end)
}
