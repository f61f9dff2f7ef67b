// Files: by their names, and what is read from them, all of it or a line.
ghost use Rattle.std.specs.Prelude.{◌≤◌, ◌<◌, length, IfSome, IfOk, OnErr};
ghost use Rattle.pictures.specs.Texts.{Line};

use std::fs::File;
use std::rt::Files;
pub use system::files::{open_in, open_out};
use system::files::{Ends, Source, read_full};

// How many bytes a settings text may have.
pub fn text_room() -> [u8; 33554432] {
    [0; 33554432]
}

// A file's bytes to the front of a buffer, and how many; one that has as many as the buffer may have more. None where it can't be opened.
pub fn read_whole<R: Files<File = File>>(
    rt: &R,
    ends: Ends,
    name: &[u8],
    buf: &mut [u8],
) -> Option<usize>
    ensures { IfSome result (λ n. n ≤ length buf.new) }
{
    let from = open_in(rt, ends, name)?;
    Some(read_full(&from, buf))
}

// The next byte of a file, where there is one.
fn next_byte(from: &Source) -> Option<u8> {
    let mut one = [0u8; 1];
    if read_full(from, &mut one) == 0 {
        return None;
    }
    Some(one[0])
}

// Why there is no line: the file ended before its first byte, or it does not end within the buffer.
#[derive(Clone, Copy, Debug, PartialEq, Eq)]
pub enum NoLine {
    Ended,
    Cut,
}

// Reads a line without its newline, and says how many bytes it has; a line that does not fit, or that the file ends, is none.
pub fn read_line(from: &Source, buf: &mut [u8]) -> Result<usize, NoLine>
    ensures ok { IfOk result (λ n. (n < length buf.new) × Line buf.old buf.new n) }
    ensures err { OnErr result (Line buf.old buf.new (length buf.new)) }
{
    for n in 0..buf.len() {
        let Some(b) = next_byte(from) else {
            return Err(if n == 0 { NoLine::Ended } else { NoLine::Cut });
        };
        if b == 10 {
            return Ok(n);
        }
        buf[n] = b;
    }
    Err(NoLine::Cut)
}
