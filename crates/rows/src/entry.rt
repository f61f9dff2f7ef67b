// Ticket 8's entry: a call's checks, its edges, and the state for the next call.
ghost use Rattle.std.specs.Prelude.{◌≡◌};
ghost use Rattle.rules.specs.Plane.{keeping};
ghost use Rattle.rules.specs.Rows.{spent_by};
ghost use Rattle.rows.specs.Stated.{Stated};

use crate::check::rows_check;
use crate::counts::final_rows;
use bands::run_band;
use plane::settings_check;
use rules::refusals::{Refusal, number};
use rules::rows::{RowState, RowsAnswer};
use rules::settings::Plane;

// The state after a refusal: spent by a bad sample, and else as it was.
fn spent_by(r: Refusal, state: RowState) -> RowState
    ensures { result ≡ spent_by r state }
{
    if number(r) == 8 {
        return RowState {
            held: state.held,
            spent: true,
        };
    }
    state
}

// Runs the edges of a plane that the rows filled so far allow, tells how many samples it stored and changed, and how many rows from the top are final;
// or refuses, leaves the plane as lent and tells of none. The state is for the next call.
pub fn deblock_rows(
    plane: &mut [u16],
    vedge: &[u8],
    hedge: &[u8],
    sqw: &[u8],
    sqh: &[u8],
    qindex: &[u16],
    tiles: &[u16],
    keep: &[u8],
    steps: &[u32],
    s: Plane,
    state: RowState,
    filled: usize,
) -> RowsAnswer
    ensures { Stated s steps.now (keeping vedge.now hedge.now sqw.now sqh.now qindex.now tiles.now keep.now) state filled plane.old result plane.new }
{
    let given = settings_check(plane, vedge, hedge, sqw, sqh, qindex, tiles, keep, steps, s);
    let a = rows_check(plane, s, state, filled, given);
    if let Err(r) = a {
        let kept = spent_by(r, state);
        return RowsAnswer {
            answer: Err(r),
            stored: 0,
            changed: 0,
            state: kept,
            finalrows: 0,
        };
    }
    let done = run_band(
        plane,
        vedge,
        hedge,
        sqw,
        sqh,
        qindex,
        tiles,
        keep,
        steps,
        s,
        state.held / 4,
        filled / 4,
    );
    let next = RowState {
        held: filled,
        spent: false,
    };
    RowsAnswer {
        answer: Ok(()),
        stored: done.stored,
        changed: done.changed,
        state: next,
        finalrows: final_rows(s.rows, filled),
    }
}
