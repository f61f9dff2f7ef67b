// What a program says where its answer goes: its outcome as one byte (2 a bad file, 3 not written), which stands before any name, and then a line. An answer that can't be written is lost.
use std::io::Write;
use system::files::{Target, write_all};

// That there is nothing more to do: the answer said why.
#[derive(Clone, Copy, Debug, PartialEq, Eq)]
pub struct Answered;

pub fn words(told: &Target, text: &[u8]) {
    let _ = write_all(told, text);
}

pub fn number(told: &Target, n: usize) {
    let mut to = told;
    let _ = write!(to, "{n}");
}

// How many frames are done, on a terminal, from the first one on.
pub fn count(errors: &Target, done: &[u8], k: usize, shown: bool) {
    if shown && 0 < k {
        words(errors, b"\r");
        words(errors, done);
        words(errors, b": frame ");
        number(errors, k);
    }
}

// A file that can't be read, or that is not what it should be.
pub fn cannot(told: &Target, name: &[u8], what: &[u8]) -> Answered {
    words(told, b"2");
    words(told, name);
    words(told, b": ");
    words(told, what);
    words(told, b"\n");
    Answered
}

// A picture that can't be written; whoever called knows its name.
pub fn unwritten(told: &Target) -> Answered {
    words(told, b"3\n");
    Answered
}

// How the answer on a line that is not as it should be begins.
pub fn at_line(told: &Target, name: &[u8], line: usize) {
    words(told, b"2");
    words(told, name);
    let mut to = told;
    let _ = write!(to, ": line {line}: expected ");
}

// A line of a file that is not as it should be.
pub fn expected(told: &Target, name: &[u8], line: usize, what: &[u8]) -> Answered {
    at_line(told, name, line);
    words(told, what);
    words(told, b"\n");
    Answered
}

// After k frames no other begins.
pub fn no_frame(told: &Target, name: &[u8], k: usize) -> Answered {
    if k == 0 {
        return expected(told, name, 2, b"'FRAME'");
    }
    words(told, b"2");
    words(told, name);
    let mut to = told;
    let _ = write!(
        to,
        ": expected 'FRAME' or the end of the file after frame {k}\n"
    );
    Answered
}

// Frame k has fewer bytes of samples than it needs.
pub fn cut(told: &Target, name: &[u8], k: usize, has: usize, needs: usize) -> Answered {
    words(told, b"2");
    words(told, name);
    let mut to = told;
    let frame = k.wrapping_add(1);
    let _ = write!(
        to,
        ": frame {frame}: expected {needs} bytes of samples, and the file ends after {has} of them\n"
    );
    Answered
}

// So many frames, where there is not one alone.
pub fn frames_of(told: &Target, n: usize) {
    if n != 1 {
        let mut to = told;
        let _ = write!(to, ", {n} frames");
    }
}
