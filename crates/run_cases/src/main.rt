// Replays streams of cases, one part after the other, and prints a line for each part: how many there were, how they came out, and how many differ.
#![tactic(auto)]

use cases::{Line, Stream};
use std::io::{Read, Write};
use tally::{Outcome, Tally, Widths};

// The parts of a stream, by whose cases they are.
#[derive(Clone, Copy, PartialEq, Eq)]
enum Part {
    Thresholds,
    Segments,
    Planes,
    Rows,
    Grids,
    Frames,
    Ccso,
}

// A number that no part has.
#[derive(Clone, Copy)]
struct NoPart;

impl TryFrom<usize> for Part {
    type Error = NoPart;

    fn try_from(number: usize) -> Result<Part, NoPart> {
        match number {
            1 => Ok(Part::Thresholds),
            2 => Ok(Part::Segments),
            3 => Ok(Part::Planes),
            4 => Ok(Part::Rows),
            5 => Ok(Part::Grids),
            6 => Ok(Part::Frames),
            7 => Ok(Part::Ccso),
            _ => Err(NoPart),
        }
    }
}

impl Part {
    // Whether the part's lines of kind 1 set the step table.
    fn has_tables(self) -> bool {
        matches!(
            self,
            Part::Thresholds | Part::Planes | Part::Rows | Part::Frames
        )
    }

    // How a case of the part came out, if it could be read.
    fn replay(self, line: Line, steps: &[u32]) -> Option<Outcome> {
        match self {
            Part::Thresholds => threshold_cases::replay(line, steps),
            Part::Segments => segment_cases::replay(line),
            Part::Planes => plane_cases::replay(line, steps),
            Part::Rows => plane_cases::replay_rows(line, steps),
            Part::Grids => grid_cases::replay(line),
            Part::Frames => frame_cases::replay(line, steps),
            Part::Ccso => ccso_cases::replay(line),
        }
    }
}

// What is counted so far, the part whose cases these are, none before the first, and the step table, of which the front stands: its length beside it, since no program here has a heap.
#[derive(Clone, Copy)]
struct Run {
    tally: Tally,
    part: Option<Part>,
    table: [u32; 400],
    steps: usize,
}

// The part that a line names.
fn named(mut line: Line) -> Option<Part> {
    let part = Part::try_from(line.unsigned(7)?).ok()?;
    line.ended().then_some(part)
}

impl Run {
    // Prints how the part's cases came out; of segments also how often each width was reached.
    fn print<W: Write>(&self, to: &mut W) {
        let _ = writeln!(to, "{}", self.tally);
        if self.part == Some(Part::Segments) {
            let counts = self.tally.widths;
            let _ = writeln!(to, "{}", Widths { counts });
        }
    }

    // A line that says whose cases follow: what was counted is printed, and counted anew. Lines before the first part stay counted.
    fn begin<W: Write>(&mut self, to: &mut W, line: Line) {
        let Some(part) = named(line) else {
            self.tally.count_unread();
            return;
        };
        if self.part.is_some() {
            self.print(to);
            self.tally = Tally::new();
        }
        self.part = Some(part);
        self.steps = 0;
    }

    // A line that sets the step table.
    fn set_steps(&mut self, line: Line) {
        let read = line.set_steps(&mut self.table);
        self.steps = read.length;
        self.tally.count_no_case(read.whole);
    }

    // A case of the part, with the steps that stand.
    fn replay(&mut self, line: Line) {
        let steps = self.table.get(..self.steps).unwrap_or_default();
        let outcome = match self.part {
            Some(part) => part.replay(line, steps),
            None => None,
        };
        self.tally.count(outcome);
    }

    // A line: 0 says whose cases follow, 1 sets the step table where the part has one, and any other is a case.
    fn line<W: Write>(&mut self, to: &mut W, line: Line) {
        let mut rest = line;
        match (rest.unsigned(4), self.part) {
            (Some(0), _) => self.begin(to, rest),
            (Some(1), Some(part)) if part.has_tables() => self.set_steps(rest),
            _ => self.replay(line),
        }
    }
}

// Every line of a stream, read into a buffer.
fn replay_all<R: Read + Drop, W: Write>(from: R, to: &mut W, buf: &mut [u8]) {
    let mut lines = Stream::new(from, buf);
    let mut run = Run {
        tally: Tally::new(),
        part: None,
        table: [0; 400],
        steps: 0,
    };
    for _ in 0..u64::MAX {
        let Ok(line) = lines.next_line() else {
            break;
        };
        run.line(to, line);
    }
    run.print(to);
}

// The buffer: the longest line that a stream may have.
fn room() -> [u8; 4194304] {
    [0; 4194304]
}

// Holds the buffer alone, since the stack has room for two as large and for little more.
fn main(rt: HostRuntime) {
    let mut buf = room();
    replay_all(rt.stdin(), &mut rt.stdout(), &mut buf);
}
