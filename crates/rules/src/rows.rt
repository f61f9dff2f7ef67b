// A plane whose rows come as they are filled: what is known between two calls, and what a call answers; specs/Rows.antt says what.
use crate::refusals::Refusal;

// How many rows of samples the last accepted call was told are filled, and whether a bad sample has spent the state.
#[derive(Clone, Copy)]
pub struct RowState {
    pub held: usize,
    pub spent: bool,
}

// A call's answer, how many samples it stored, how many of those differ from before, the state for the next call, and how many rows from the top are final.
// No `Result`: a refusal has a state for the next call too.
#[derive(Clone, Copy)]
pub struct RowsAnswer {
    pub answer: Result<(), Refusal>,
    pub stored: usize,
    pub changed: usize,
    pub state: RowState,
    pub finalrows: usize,
}
