// The lines of a text, one after the other; lines count from 1.
ghost use Rattle.std.specs.Prelude.{◌≡◌, ◌+◌, ◌≤◌};
ghost use Rattle.settings.specs.Walked.{Next};

use text::place::{content_end, line_end};

// A line: its number, the place where it starts, and the one where what it says ends.
#[derive(Clone, Copy)]
pub struct Line {
    pub number: usize,
    pub at: usize,
    pub stop: usize,
}

// The next line's number, and where it starts.
#[derive(Clone, Copy)]
pub struct Walk {
    pub number: usize,
    pub at: usize,
}

impl Walk {
    // Before the first line.
    pub fn new() -> Walk
        ensures { result ≡ record { number = 1; at = 0 } }
    {
        Walk { number: 1, at: 0 }
    }

    // The next line of a text.
    pub fn next(&mut self, text: &[u8]) -> Option<Line>
        requires { self.old.number ≤ self.old.at + 1 }
        ensures { Next text.now self.old result self.new }
    {
        let n = text.len();
        let at = self.at;
        if n <= at {
            return None;
        }
        let end = line_end(text, at, n);
        let stop = content_end(text, at, end);
        let line = Line {
            number: self.number,
            at,
            stop,
        };
        self.at = end + 1;
        self.number += 1;
        Some(line)
    }
}
