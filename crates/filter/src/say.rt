// The answer: the outcome as one byte (0 filtered, 1 refused, 2 a bad file, 3 not written), which stands before any name, and then a line.
use crate::one_frame::Told;
use rules::counts::Counts;
use streams::say::{frames_of, number, words};
use system::files::{Ends, Target};
use y4m::header::Header;

pub fn usage(answer: &Target) {
    words(answer, b"usage: filter PICTURE SETTINGS OUT [plain]\n");
}

// How many frames are done, on a terminal.
pub fn count(ends: Ends, k: usize, shown: bool) {
    let errors = Target::Errors(ends.errors);
    streams::say::count(&errors, b"filtered", k, shown);
}

// What deblocking stored, and how much of it is not as it was.
fn counted(answer: &Target, counts: Counts) {
    words(answer, b"; deblocking stored ");
    number(answer, counts.stored);
    words(answer, b" samples and changed ");
    number(answer, counts.changed);
}

// The frames that were filtered, and how many samples are not as they were.
pub fn filtered(answer: &Target, name: &[u8], h: Header, frames: usize, told: Told) {
    words(answer, b"0filtered ");
    words(answer, name);
    words(answer, b": ");
    number(answer, h.width);
    words(answer, b"x");
    number(answer, h.height);
    frames_of(answer, frames);
    words(answer, b", ");
    number(answer, told.changed);
    words(answer, b" samples changed");
    counted(answer, told.counts);
    words(answer, b"\n");
}
