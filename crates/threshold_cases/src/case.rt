// One case: what the entry is asked, and what the stream says that it answers.
use cases::Line;
use rules::refusals::{Refusal, Thresholds};
use tally::Outcome;
use thresholds::combine::combine_thresholds;

// The entry's numbers, the refusal's number or 0, and the answer's two numbers.
#[derive(Clone, Copy)]
struct Case {
    curr: u16,
    prev: u16,
    deltaq: i32,
    deltaside: i32,
    depth: u32,
    number: usize,
    a: usize,
    b: usize,
}

// A line after its kind.
fn read(mut line: Line) -> Option<Case> {
    let case = Case {
        curr: line.number()?,
        prev: line.number()?,
        deltaq: line.signed()?,
        deltaside: line.signed()?,
        depth: line.number()?,
        number: line.unsigned(9)?,
        a: line.size()?,
        b: line.size()?,
    };
    line.ended().then_some(case)
}

// Whether the answer is the stream's.
fn same(answer: Result<Thresholds, Refusal>, c: Case) -> bool {
    match answer {
        Ok(t) => c.number == 0 && t.q as usize == c.a && t.side as usize == c.b,
        Err(r) => c.b == 0 && tally::refused(r, c.number, c.a),
    }
}

// A line of kind 2, on the Rust's own step table, or 3, on another: both are replayed alike.
pub fn replay(mut line: Line, steps: &[u32]) -> Option<Outcome> {
    if !matches!(line.unsigned(3)?, 2 | 3) {
        return None;
    }
    let c = read(line)?;
    let answer = combine_thresholds(c.curr, c.prev, c.deltaq, c.deltaside, c.depth, steps);
    Some(Outcome::new(c.number, same(answer, c)))
}
