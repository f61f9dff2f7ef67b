// The picture's file, and whether its header is good.
ghost use Rattle.std.specs.Prelude.{◌≤◌, length, IfOk};

use crate::say::{Answered, cannot, expected};
use pictures::files;
use pictures::outside::twice;
use std::fs::File;
use std::rt::Files;
use system::files::{Ends, Source, Target};
use y4m::header::{Header, read_header};

// What a header's values lack.
fn lacking(h: Header) -> Option<&'static [u8]> {
    let layout = h.layout;
    if !h.opens {
        return Some(b"'YUV4MPEG2'");
    }
    if h.width == 0 {
        return Some(b"a width from 1 to 4096 after W");
    }
    if h.height == 0 {
        return Some(b"a height from 1 to 4096 after H");
    }
    if layout.depth == 0 {
        return Some(b"420, 422, 444 or mono after C, of depth 8, 10 or 12");
    }
    None
}

// Whether a line has a value twice.
fn has_twice(head: &[u8]) -> bool {
    let n = head.len();
    if n == 0 {
        return false;
    }
    let last = n - 1;
    twice(head, 87, last) || twice(head, 72, last) || twice(head, 67, last)
}

// The header of a line; an error after the answer that says what was expected.
fn header_of(told: &Target, name: &[u8], head: &[u8]) -> Result<Header, Answered>
    requires { 1 ≤ length head.now }
{
    let h = read_header(head, head.len());
    if let Some(what) = lacking(h) {
        return Err(expected(told, name, 1, what));
    }
    if has_twice(head) {
        return Err(expected(told, name, 1, b"one width, one height and one format"));
    }
    Ok(h)
}

// A picture's file, the length of its first line, and its header.
#[derive(Drop)]
pub struct Opened {
    pub from: Source,
    pub n: usize,
    pub h: Header,
}

// Opens a picture and reads its first line; an error after the answer that says why not. A line that is empty or too long is none.
pub fn open<R: Files<File = File>>(
    rt: &R,
    ends: Ends,
    told: &Target,
    name: &[u8],
    head: &mut [u8],
) -> Result<Opened, Answered>
    ensures { IfOk result (λ p. p.n ≤ length head.new) }
{
    let Some(from) = files::open_in(rt, ends, name) else {
        return Err(cannot(told, name, b"the picture can't be read"));
    };
    let n = files::read_line(&from, head).unwrap_or(0);
    if n == 0 {
        return Err(expected(
            told,
            name,
            1,
            b"'YUV4MPEG2' and a header of fewer than 1024 bytes",
        ));
    }
    let h = header_of(told, name, &head[..n])?;
    Ok(Opened { from, n, h })
}

// Whether no plane has more than 512 rows, or samples in a row.
pub fn small(h: Header) -> bool {
    h.width <= 512 && h.height <= 512
}
