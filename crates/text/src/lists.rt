// Lists of a line, their length first: read into lent lists, or held against lists that are there.
ghost use Rattle.std.specs.Prelude.{◌≡◌, ◌+◌, ◌≤◌, ◌<◌};
ghost use Rattle.text.specs.Lists.{held_on, held_at, Fills, Reads, ReadsTwo, SetsSteps};

use crate::entry::Entry;
use crate::number::{Cursor, ended};
use crate::typed::{read_signed, read_unsigned};

// How many entries a list has, and what follows it.
#[derive(Clone, Copy)]
pub struct Listed {
    pub length: usize,
    pub rest: Cursor,
}

// How many entries two lists have, and what follows them.
#[derive(Clone, Copy)]
pub struct Two {
    pub a: usize,
    pub b: usize,
    pub rest: Cursor,
}

// How many steps a line sets, and whether it was read whole.
// A flag and no Option: the steps that were read stand in the list even where the line goes on (`SetsSteps`).
#[derive(Clone, Copy)]
pub struct Steps {
    pub length: usize,
    pub whole: bool,
}

// Whether the next entries are those of a list, how many of them before one that differs, and what follows.
// A flag and no Option: the count holds either way, and callers ask for the flag alone.
#[derive(Clone, Copy)]
pub struct Held {
    pub same: bool,
    pub place: usize,
    pub rest: Cursor,
}

// A list of entries, to the front of a lent list.
pub fn read_list<T: Entry>(text: &[u8], c: Cursor, list: &mut [T]) -> Listed
    ensures { Reads T.entry_of T.MOST text.now c list.old list.new result }
{
    let n = read_unsigned(text, c, list.len());
    let mut rest = n.rest;
    for i in 0..n.value {
        let e = read_unsigned(text, rest, T::MOST);
        list[i] = T::entry(e.value);
        rest = e.rest;
    }
    Listed {
        length: n.value,
        rest,
    }
}

// Two lists of u8 entries, each to the front of its own lent list.
pub fn read_two(text: &[u8], c: Cursor, a: &mut [u8], b: &mut [u8]) -> Two
    ensures { ReadsTwo text.now c a.old b.old a.new b.new result }
{
    let x = read_list(text, c, a);
    let y = read_list(text, x.rest, b);
    Two {
        a: x.length,
        b: y.length,
        rest: y.rest,
    }
}

// Holds the next entry against v; after one that differs nothing more is read.
fn hold(text: &[u8], h: Held, most: usize, v: usize) -> Held
    requires { h.place < 18446744073709551615 }
    ensures { (result ≡ held_on most text.now v h) × (result.place ≤ h.place + 1) }
{
    if !h.same {
        return h;
    }
    let e = read_unsigned(text, h.rest, most);
    if e.value != v {
        return Held {
            same: false,
            place: h.place,
            rest: e.rest,
        };
    }
    Held {
        same: true,
        place: h.place + 1,
        rest: e.rest,
    }
}

// Holds the next entries against those of a list, up to the first that differs.
pub fn hold_list<T: Entry>(text: &[u8], c: Cursor, list: &[T]) -> Held
    ensures { result ≡ held_at T.number_of (T.entry_of 0) T.MOST text.now c list.now }
{
    let mut h = Held {
        same: true,
        place: 0,
        rest: c,
    };
    for v in list {
        h = hold(text, h, T::MOST, v.number());
    }
    h
}

// A line that sets the step table: its steps, to the front of a lent list.
pub fn set_steps(text: &[u8], c: Cursor, list: &mut [u32]) -> Steps
    ensures { SetsSteps text.now c list.old list.new result }
{
    let l = read_list(text, c, list);
    let whole = ended(l.rest);
    Steps {
        length: l.length,
        whole,
    }
}

// A list of i32 entries, to the front of a lent list; beside `read_list`, since its entries have a sign.
pub fn read_i32s(text: &[u8], c: Cursor, list: &mut [i32]) -> Listed
    ensures { Fills result.length list.old list.new }
{
    let n = read_unsigned(text, c, list.len());
    let mut rest = n.rest;
    for i in 0..n.value {
        let e = read_signed(text, rest);
        list[i] = e.value;
        rest = e.rest;
    }
    Listed {
        length: n.value,
        rest,
    }
}
