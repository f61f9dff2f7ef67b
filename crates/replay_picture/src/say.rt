// The answer where it goes: the outcome as one byte (0 run again, 1 refused, 2 a bad file, 3 not written), which stands before any name, and then a line.
use pictures::planes::Shape;
use rules::refusals::Refusal;
use std::io::Write;
use streams::say::{Answered, frames_of, number, words};
use system::files::Target;
use y4m::header::Header;

pub fn usage(told: &Target) {
    words(
        told,
        b"usage: replay_picture PICTURE OUT Y [U V [SETTINGS]]\n",
    );
}

// How many frames are done, on a terminal.
pub fn count(errors: &Target, k: usize, shown: bool) {
    streams::say::count(errors, b"replayed", k, shown);
}

// A plane by its name.
fn plane_name(told: &Target, p: usize) {
    match p {
        0 => words(told, b"luma"),
        1 => words(told, b"U"),
        _ => words(told, b"V"),
    }
}

// A refusal's meaning, by its place.
fn meaning(told: &Target, r: Refusal, s: Shape) {
    match r {
        Refusal::Header => words(told, b"expected 'EDG' and version 1"),
        Refusal::Cut(k) => entry(told, k, b" is cut"),
        Refusal::Entry(k) => entry(told, k, b" is outside document 01's ranges"),
        Refusal::Room(k) => entry(told, k, b" lacks room in the plane"),
        Refusal::Sample(k) => sample(told, k, s.stride),
        Refusal::Cell(_) => words(told, b"a keep mark is neither 0 nor 1"),
        _ => words(
            told,
            b"the plane's depth, size or list is outside its range",
        ),
    }
}

// An entry of the record, counted from 0.
fn entry(told: &Target, k: usize, what: &[u8]) {
    words(told, b"entry ");
    number(told, k);
    words(told, what);
}

// A sample of the plane by its row and column.
fn sample(told: &Target, k: usize, stride: usize) {
    words(told, b"a sample is above the depth's top");
    if 0 < stride {
        let mut to = told;
        let _ = write!(to, "; row {}, column {}", k / stride, k % stride);
    }
}

// Why the record of plane p is not run.
pub fn refused(told: &Target, p: usize, r: Refusal, s: Shape) -> Answered {
    words(told, b"1refused by ");
    number(told, rules::refusals::number(r) as usize);
    words(told, b": ");
    plane_name(told, p);
    words(told, b"'s record: ");
    meaning(told, r, s);
    words(told, b"\n");
    Answered
}

// The frames that the records were run on, and how many edges a frame has.
pub fn replayed(told: &Target, name: &[u8], h: Header, frames: usize, edges: usize) {
    words(told, b"0replayed ");
    words(told, name);
    let mut to = told;
    let _ = write!(to, ": {}x{}", h.width, h.height);
    frames_of(told, frames);
    let each = if frames == 1 { "" } else { " each" };
    let _ = write!(to, ", {edges} edges{each}\n");
}
