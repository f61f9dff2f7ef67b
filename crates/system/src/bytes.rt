// Bytes from what reads, to the front of a buffer, and bytes to what writes. What can't be read has ended; what can't be written is an error.
ghost use Rattle.std.specs.Prelude.{◌≡◌, ◌≤◌, length};

use std::io;
use std::io::{Read, Write};

// Room for a word or a name.
pub fn buffer() -> [u8; 4096] {
    [0; 4096]
}

// Room for the front of a file.
pub fn large_buffer() -> [u8; 65536] {
    [0; 65536]
}

// One read to the front of a buffer: how many bytes came, and none where the input has ended or can't be read.
pub fn read_some<R: Read>(from: &mut R, buf: &mut [u8]) -> usize
    ensures { result ≤ length buf.new }
{
    from.read(buf).unwrap_or(0)
}

// Reads until a buffer is full, the input ends or it can't be read: how many bytes stand at the buffer's front.
pub fn read_full<R: Read>(from: &mut R, buf: &mut [u8]) -> usize
    ensures { result ≤ length buf.new }
{
    let mut done = 0;
    // A `while`: each read says how far it came.
    while done < buf.len() {
        let n = read_some(from, &mut buf[done..]);
        if n == 0 {
            return done;
        }
        done += n;
    }
    done
}

// Writes all of some bytes; an error where they can't be written whole.
pub fn write_all<W: Write>(to: &mut W, bytes: &[u8]) -> io::Result<()> {
    to.write_all(bytes)
}

// Writes a number's decimal digits; an error where they can't be written whole.
pub fn print_decimal<W: Write>(to: &mut W, n: u64) -> io::Result<()> {
    write!(to, "{n}")
}
