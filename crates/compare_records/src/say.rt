// The answer, in words; one that can't be written is lost.
use compared::{length_after, length_before};
use rules::edge::Edge;
use rules::refusals::Refusal;
use std::cmp::Ordering;
use std::io::Write;
use system::files::{Target, write_all};

// That there is nothing more to do: the answer said why.
#[derive(Clone, Copy, Debug, PartialEq, Eq)]
pub struct Answered;

pub fn words(told: &Target, text: &[u8]) {
    let _ = write_all(told, text);
}

pub fn usage(told: &Target) {
    words(told, b"usage: compare_records A [B]\n");
}

// A file that is no record.
pub fn bad(told: &Target, name: &[u8], what: &[u8]) -> Answered {
    words(told, b"2");
    words(told, name);
    words(told, b": ");
    words(told, what);
    words(told, b"\n");
    Answered
}

// Why a record is refused.
pub fn refused(told: &Target, name: &[u8], r: Refusal) -> Answered {
    match r {
        Refusal::Cut(k) => bad_entry(told, name, 12, k, b" is cut\n"),
        Refusal::Entry(k) => bad_entry(told, name, 13, k, b" is outside document 01's ranges\n"),
        _ => bad(told, name, b"refused by 11: expected 'EDG' and version 1"),
    }
}

fn bad_entry(told: &Target, name: &[u8], rule: usize, k: usize, what: &[u8]) -> Answered {
    words(told, b"2");
    words(told, name);
    let mut to = told;
    let _ = write!(to, ": refused by {rule}: entry {k}");
    words(told, what);
    Answered
}

// Records that are the same.
pub fn equal(told: &Target, edges: usize) {
    let mut to = told;
    let _ = write!(to, "0equal: {edges} edges\n");
}

fn direction(dir: usize) -> &'static str {
    if dir == 0 { " vertical" } else { " horizontal" }
}

// The two lengths of a pair.
fn lengths(told: &Target, pair: usize) {
    if 8 <= pair {
        return;
    }
    let mut to = told;
    let _ = write!(
        to,
        "lengths {} and {}",
        length_before(pair),
        length_after(pair)
    );
}

// That records differ, first in an edge with its number in the record.
pub fn edge(told: &Target, k: usize, e: Edge) {
    let mut to = told;
    let _ = write!(to, "1edge {k}: x {} y {}{}, ", e.x, e.y, direction(e.dir));
    lengths(told, e.pair);
    let _ = write!(to, ", q {}, side {}", e.q, e.side);
}

// What the other record's edge has instead, where a number differs.
fn instead(told: &Target, name: &str, mine: usize, other: usize) {
    if mine != other {
        let mut to = told;
        let _ = write!(to, " {name} {other}");
    }
}

pub fn other(told: &Target, e: Edge, f: Edge) {
    words(told, b"; the other has");
    instead(told, "x", e.x, f.x);
    instead(told, "y", e.y, f.y);
    if e.dir != f.dir {
        words(told, direction(f.dir).as_bytes());
    }
    if e.pair != f.pair {
        words(told, b" ");
        lengths(told, f.pair);
    }
    instead(told, "q", e.q as usize, f.q as usize);
    instead(told, "side", e.side as usize, f.side as usize);
    words(told, b"\n");
}

// Which record is longer.
pub fn longer(told: &Target, a: &[u8], n: usize, b: &[u8], m: usize) {
    let which = match n.cmp(&m) {
        Ordering::Equal => "both are as long",
        Ordering::Greater => "the first is longer",
        Ordering::Less => "the second is longer",
    };
    let mut to = told;
    words(told, a);
    let _ = write!(to, ": {n} edges; ");
    words(told, b);
    let _ = write!(to, ": {m} edges; {which}\n");
}
