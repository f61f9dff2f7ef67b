// The answer: the outcome as one byte (0 filtered, 1 refused, 2 a bad file, 3 not written), which stands before any name, and then a line.
use rules::counts::Counts;
use settings::kinds::Kind;
use std::io::Write;
use streams::say::{Answered, frames_of, number, words};
use streams::take::setting;
use system::files::Target;
use y4m::header::Header;

pub fn usage(told: &Target) {
    words(told, b"usage: camera SETTINGS\n");
}

// How many frames are done, on a terminal.
pub fn count(errors: &Target, k: usize, shown: bool) {
    streams::say::count(errors, b"filtered", k, shown);
}

// A line of the settings that asks for CCSO offsets.
pub fn no_offsets(told: &Target, name: &[u8], line: usize, kind: Kind) -> Answered {
    words(told, b"2");
    words(told, name);
    words(told, b": line ");
    number(told, line);
    words(told, b": camera deblocks alone, and takes no ");
    setting(told, kind);
    words(told, b"\n");
    Answered
}

// The frames that were filtered, and what deblocking stored and changed.
pub fn filtered(told: &Target, h: Header, frames: usize, counts: Counts) {
    words(told, b"0filtered -: ");
    let mut to = told;
    let _ = write!(to, "{}x{}", h.width, h.height);
    frames_of(told, frames);
    let _ = write!(
        to,
        "; deblocking stored {} samples and changed {}\n",
        counts.stored, counts.changed
    );
}
