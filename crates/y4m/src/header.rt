// A header line: its first word, then letters each with a value, of which W, H and C are read.
ghost use Rattle.std.specs.Prelude.{◌≡◌, ◌+◌, ◌≤◌, ◌<◌, length};
ghost use Rattle.text.specs.Places.{seek};
ghost use Rattle.y4m.specs.Formats.{format_at};
ghost use Rattle.y4m.specs.Headers.{tag_at, size_at, opens_at, frames_at, header_of};

use crate::format::{Layout, named};
use text::Cursor;
use text::spell::read_word;

// What a header line says. A size of 0 is missing, bad or above 4096, as `header_of` says of `read_header` (docs/ENTRIES.md).
#[derive(Clone, Copy)]
pub struct Header {
    pub opens: bool,
    pub width: usize,
    pub height: usize,
    pub layout: Layout,
}

// A space and then the letter.
pub fn is_tag(text: &[u8], k: usize, letter: u8) -> bool
    requires { k + 1 < length text.now }
    ensures { result ≡ tag_at text.now letter k }
{
    text[k] == b' ' && text[k + 1] == letter
}

// The space before the first such letter of a line, or the place of its last byte.
fn tag(text: &[u8], last: usize, letter: u8) -> usize
    requires { last < length text.now }
    ensures value { result ≡ seek (tag_at text.now letter) 0 last }
    ensures upper_bound { result ≤ last }
{
    for at in 0..last {
        if is_tag(text, at, letter) {
            return at;
        }
    }
    last
}

// A number from 1 to 4096 that starts here with a digit, else 0.
fn size(text: &[u8], at: usize, end: usize) -> usize
    requires { end ≤ length text.now }
    ensures { result ≡ size_at text.now at end }
{
    if end <= at {
        return 0;
    }
    if text[at] < b'0' {
        return 0;
    }
    let n = text::read_unsigned(
        text,
        Cursor {
            at,
            end,
            good: true,
        },
        4096,
    );
    n.value
}

// The format that a line names, 4:2:0 of depth 8 where it names none.
fn format(text: &[u8], at: usize, end: usize) -> Layout
    requires { (at < end) × (end ≤ length text.now) }
    ensures { result ≡ format_at text.now at end }
{
    if at + 1 < end {
        let w = read_word(text, at + 2, end);
        return named(w.value);
    }
    named(3420720)
}

// YUV4MPEG2: Y, and then eight letters as one number.
fn is_opening(text: &[u8], end: usize) -> bool
    requires { (1 ≤ end) × (end ≤ length text.now) }
    ensures { result ≡ opens_at text.now end }
{
    if text[0] != b'Y' {
        return false;
    }
    let w = read_word(text, 1, end);
    w.value == 6149159847884834610
}

// The line that stands before a picture's samples.
pub fn is_frame(text: &[u8], end: usize) -> bool
    requires { end ≤ length text.now }
    ensures { result ≡ frames_at text.now end }
{
    let w = read_word(text, 0, end);
    w.value == 302027722053
}

pub fn read_header(text: &[u8], end: usize) -> Header
    requires { (1 ≤ end) × (end ≤ length text.now) }
    ensures { result ≡ header_of text.now end }
{
    let last = end - 1;
    let w = tag(text, last, b'W');
    let h = tag(text, last, b'H');
    let c = tag(text, last, b'C');
    let layout = format(text, c, end);
    Header {
        opens: is_opening(text, end),
        width: size(text, w + 2, end),
        height: size(text, h + 2, end),
        layout,
    }
}
