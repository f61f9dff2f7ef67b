// One call on filled rows: what the caller does before it, what it is asked, and what the stream says that it answers and leaves.
use crate::grid::Grid;
use crate::samples;
use cases::Line;
use rows::deblock_rows;
use rules::counts::Counts;
use rules::rows::{RowState, RowsAnswer};
use text::Answered;

// What the caller does before a call: from a place up to another the picture's samples come, and beyond stands rubbish.
#[derive(Clone, Copy)]
struct Filling {
    from: usize,
    to: usize,
    first: u16,
    step: u16,
}

// A call: what is done before it; the state and the count that it is handed; the answer, the entries and the rows that are final, and the state, which are due.
#[derive(Clone, Copy)]
pub struct Call {
    filling: Filling,
    state: RowState,
    filled: usize,
    pub told: Answered,
    done: usize,
    finalrows: usize,
    next: RowState,
}

fn read_filling(line: &mut Line) -> Option<Filling> {
    Some(Filling {
        from: line.size()?,
        to: line.size()?,
        first: line.number()?,
        step: line.number()?,
    })
}

fn read_state(line: &mut Line) -> Option<RowState> {
    Some(RowState {
        held: line.large()?,
        spent: line.flag()?,
    })
}

// The next call of a line.
pub fn read(line: &mut Line) -> Option<Call> {
    Some(Call {
        filling: read_filling(line)?,
        state: read_state(line)?,
        filled: line.large()?,
        told: line.counted()?,
        done: line.size()?,
        finalrows: line.size()?,
        next: read_state(line)?,
    })
}

// Whether a state is the stream's.
fn same_state(a: RowState, b: RowState) -> bool {
    a.held == b.held && a.spent == b.spent
}

// Whether the answer, both counts, the rows called final and the state are the stream's.
fn answered(a: RowsAnswer, call: Call) -> bool {
    let told = call.told;
    let counts = Counts {
        stored: a.stored,
        changed: a.changed,
    };
    tally::same_beside(
        a.answer,
        counts,
        told.number,
        told.place,
        told.stored,
        told.changed,
    ) && a.finalrows == call.finalrows
        && same_state(a.state, call.next)
}

// Whether a call left the plane as is due: after a refusal all of it as the call found it, and else what is called final as the whole run leaves it, and the rows not filled yet as they were.
fn left(plane: &[u16], found: &[u16], due: &[u16], call: Call) -> bool {
    let told = call.told;
    let f = call.filling;
    let n = plane.len();
    if told.number != 0 {
        return samples::alike(plane, found, 0, n);
    }
    samples::alike(plane, due, 0, call.done) && samples::alike(plane, found, f.to, n)
}

// Fills the plane as the caller does, runs the call, and holds what it answers and leaves against the stream's.
pub fn run(
    call: Call,
    g: Grid,
    picture: &[u16],
    due: &[u16],
    plane: &mut [u16],
    found: &mut [u16],
) -> bool {
    let f = call.filling;
    let n = plane.len();
    samples::copy(plane, picture, f.from, f.to);
    samples::spoil(plane, f.to, f.first, f.step);
    samples::copy(found, plane, 0, n);
    let a = deblock_rows(
        plane,
        g.vedge,
        g.hedge,
        g.sqw,
        g.sqh,
        g.qindex,
        g.tiles,
        g.keep,
        g.steps,
        g.s,
        call.state,
        call.filled,
    );
    answered(a, call) && left(plane, found, due, call)
}
