// What a replay of recorded cases counts, and what it prints: the programs run_* speak through it, and oracle/compare reads it.
#![tactic(auto)]

ghost use Rattle.std.specs.Prelude.{◌≡◌, IsNone};
ghost use Rattle.tally.specs.Counts.{next_of, no_counts, unread_more, no_case, number_more, case_more, width_more, line_more, is_refusal, is_answer, is_counted, is_counted_beside};

use rules::counts::Counts;
use rules::refusals;
use rules::refusals::Refusal;
use std::fmt;

// Cases by the refusal number that the stream gives them, 0 for none; accepted segments by their width; cases that differ; lines that can't be read.
#[derive(Clone, Copy)]
pub struct Tally {
    pub numbers: [u64; 21],
    pub widths: [u64; 9],
    pub different: u64,
    pub unread: u64,
}

// How a case came out: the refusal's number that the stream gives it, 0 for none; whether its answer and its lists were the stream's; the width of an accepted segment.
// The number stays one: it is the stream's own, and `case_more` counts by it.
#[derive(Clone, Copy)]
pub struct Outcome {
    pub number: usize,
    pub same: bool,
    pub width: Option<usize>,
}

impl Outcome {
    // How a case came out that has no width.
    pub fn new(number: usize, same: bool) -> Outcome
        ensures number { result.number ≡ number }
        ensures same { result.same ≡ same }
        ensures width { IsNone result.width }
    {
        Outcome {
            number,
            same,
            width: None,
        }
    }
}

// A count and one more.
fn next(n: u64) -> u64
    ensures { result ≡ next_of n }
{
    n.wrapping_add(1)
}

impl Tally {
    pub fn new() -> Tally
        ensures { result ≡ no_counts }
    {
        Tally {
            numbers: [0; 21],
            widths: [0; 9],
            different: 0,
            unread: 0,
        }
    }

    // A line more that can't be read.
    pub fn count_unread(&mut self)
        ensures { self.new ≡ unread_more self.old }
    {
        self.unread = next(self.unread);
    }

    // A line that is no case: it counts where it can't be read.
    pub fn count_no_case(&mut self, read: bool)
        ensures { self.new ≡ no_case self.old read }
    {
        if !read {
            self.count_unread();
        }
    }

    // One case more, by its refusal's number, 0 for none.
    fn count_number(&mut self, number: usize)
        ensures { self.new ≡ number_more self.old number }
    {
        if number < 21 {
            self.numbers[number] = next(self.numbers[number]);
        } else {
            self.count_unread();
        }
    }

    // One case more, and whether its answer and its lists were the stream's.
    pub fn count_case(&mut self, number: usize, same: bool)
        ensures { self.new ≡ case_more self.old number same }
    {
        self.count_number(number);
        if !same {
            self.different = next(self.different);
        }
    }

    // The width of an accepted segment.
    pub fn count_width(&mut self, samples: usize)
        ensures { self.new ≡ width_more self.old samples }
    {
        if samples < 9 {
            self.widths[samples] = next(self.widths[samples]);
        }
    }

    // One line more: how its case came out, if it could be read.
    pub fn count(&mut self, line: Option<Outcome>)
        ensures { self.new ≡ line_more self.old line }
    {
        match line {
            None => self.count_unread(),
            Some(o) => {
                self.count_case(o.number, o.same);
                match o.width {
                    None => {}
                    Some(samples) => self.count_width(samples),
                }
            }
        }
    }
}

// Whether a refusal has this number and place.
pub fn refused(r: Refusal, number: usize, place: usize) -> bool
    ensures { result ≡ is_refusal r number place }
{
    if refusals::number(r) as usize != number {
        return false;
    }
    refusals::place(r) == place
}

// Whether an answer is the refusal of this number and place, or accepts where the number is 0.
pub fn same(answer: Result<(), Refusal>, number: usize, place: usize) -> bool
    ensures { result ≡ is_answer answer number place }
{
    match answer {
        Ok(()) => number == 0,
        Err(r) => refused(r, number, place),
    }
}

// Whether a plane's or a frame's answer is this one, with both counts.
pub fn same_counted(
    a: Result<Counts, Refusal>,
    number: usize,
    place: usize,
    stored: usize,
    changed: usize,
) -> bool
    ensures { result ≡ is_counted a number place stored changed }
{
    match a {
        Ok(n) => n.stored == stored && n.changed == changed && number == 0,
        Err(r) => stored == 0 && changed == 0 && refused(r, number, place),
    }
}

// Whether an answer is this one, and so are the counts that stand beside it, a refusal's too.
pub fn same_beside(
    answer: Result<(), Refusal>,
    counts: Counts,
    number: usize,
    place: usize,
    stored: usize,
    changed: usize,
) -> bool
    ensures { result ≡ is_counted_beside answer counts number place stored changed }
{
    counts.stored == stored && counts.changed == changed && same(answer, number, place)
}

// How the cases came out: of document 01's refusals each number and its count, of a ticket's where it was given.
impl fmt::Display for Tally {
    fn fmt<W: fmt::Write>(&self, f: &mut fmt::Formatter<W>) -> fmt::Result {
        let n = &self.numbers;
        write!(f, "accepted {}, refused by 1: {}", n[0], n[1])?;
        // by index, since the first two are printed otherwise and a ticket's only where there are any
        for k in 2..21 {
            if k < 10 || n[k] != 0 {
                write!(f, ", by {k}: {}", n[k])?;
            }
        }
        write!(f, "; different {}, unread {}", self.different, self.unread)
    }
}

// How often each width was reached.
#[derive(Clone, Copy)]
pub struct Widths {
    pub counts: [u64; 9],
}

impl fmt::Display for Widths {
    fn fmt<W: fmt::Write>(&self, f: &mut fmt::Formatter<W>) -> fmt::Result {
        write!(f, "width 0: {}", self.counts[0])?;
        // by index, since the first is printed otherwise
        for k in 1..9 {
            write!(f, ", {k}: {}", self.counts[k])?;
        }
        Ok(())
    }
}
