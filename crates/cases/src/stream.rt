// Whole lines of an input, in a buffer that the caller lends.
ghost use Rattle.std.specs.Prelude.{◌≡◌, ◌≤◌, ◌<◌, length, IfSome, IfOk, true};

use crate::asked::Line;
use std::io::Read;
use system::bytes;

// Why there is no next line.
#[derive(Clone, Copy, Debug, PartialEq, Eq)]
pub enum NoLine {
    // the input ended, or can't be read
    Ended,
    // the line is longer than the buffer
    Long,
}

// An input, the buffer that it is read into, where the next line begins there, and what of it is filled.
#[derive(Drop)]
pub struct Stream<'b, R> {
    input: R,
    buf: &'b mut [u8],
    next: usize,
    filled: usize,
    ghost in_order: { next ≤ filled },
    ghost in_range: { filled ≤ length buf.now },
}

// The place of the first newline of a part.
fn newline(buf: &[u8], from: usize, to: usize) -> Option<usize>
    requires in_order { from ≤ to }
    requires in_range { to ≤ length buf.now }
    ensures at_least { IfSome result (λ k. from ≤ k) }
    ensures within { IfSome result (λ k. k < to) }
{
    let at = buf[from..to].iter().position(|&b| b == 10)?;
    Some(from + at)
}

impl<'b, R: Read> Stream<'b, R> {
    // Before the first line.
    pub fn new(input: R, buf: &'b mut [u8]) -> Stream<'b, R> {
        Stream {
            input,
            buf,
            next: 0,
            filled: 0,
        }
    }

    // Moves what is left of the buffer to its front.
    fn move_down(&mut self)
        ensures { self.new.next ≡ 0 }
    {
        let from = self.next;
        let to = self.filled;
        self.next = 0;
        self.filled = to - from;
        self.buf.copy_within(from..to, 0);
    }

    // Reads until a newline comes, the buffer is full or the input ends: where the newline stands.
    fn read_on(&mut self) -> Option<usize>
        requires { self.old.next ≡ 0 }
        ensures stays { self.new.next ≡ 0 }
        ensures within { IfSome result (λ k. k < self.new.filled) }
    {
        // No `for`: how many bytes a read brings is known only after it.
        while self.filled < self.buf.len() {
            let start = self.filled;
            let got = bytes::read_some(&mut self.input, &mut self.buf[start..]);
            if got == 0 {
                return None;
            }
            self.filled += got;
            if let Some(end) = newline(self.buf, start, self.filled) {
                return Some(end);
            }
        }
        None
    }

    // The bytes of the line at the buffer's front, once no whole one was left: where they end, and where the next line begins.
    fn refill(&mut self) -> Result<usize, NoLine>
        ensures { IfOk result (λ end. end ≤ length self.new.buf.now) }
    {
        self.move_down();
        let newline = self.read_on();
        let room = self.buf.len();
        let end = self.filled;
        if let Some(end) = newline {
            self.next = end + 1;
            return Ok(end);
        }
        self.filled = 0;
        if room <= end {
            return Err(NoLine::Long);
        }
        if end == 0 {
            return Err(NoLine::Ended);
        }
        self.filled = end;
        self.next = end;
        Ok(end)
    }

    // The next line; there is none where the input has ended or the line does not fit the buffer.
    pub fn next_line(&mut self) -> Result<Line<'_>, NoLine>
        ensures whole { IfOk result (λ l. l.rest.end ≡ length l.text.now) }
        ensures start { IfOk result (λ l. l.rest.at ≡ 0) }
        ensures good { IfOk result (λ l. l.rest.good ≡ true) }
    {
        let from = self.next;
        if let Some(end) = newline(self.buf, from, self.filled) {
            self.next = end + 1;
            return Ok(Line::new(&self.buf[from..end]));
        }
        let end = self.refill()?;
        Ok(Line::new(&self.buf[..end]))
    }
}
