// A call on filled rows for C: how many rows are final, with the place of a refusal, both counts and the state for the next call.
ghost use Rattle.rules.specs.Plane.{keeping};
ghost use Rattle.by_list.specs.Rows.{RowsTold};

use answers::{told_refusal, told_rows};
use by_list::filled_rows::{hold, lists_check};
use numbers::plane_of;
use rows::deblock_rows;
use rules::rows::RowState;

// How many rows are final, or minus the refusal number with its place in the first entry of `place`; stored and changed samples in `counts`; the state for the next call in `state`.
#[unsafe(no_mangle)]
pub extern "C" fn bihargesh_rows(
    plane: &mut [u16],
    vedge: &[u8],
    hedge: &[u8],
    sqw: &[u8],
    sqh: &[u8],
    qindex: &[u16],
    tiles: &[u16],
    keep: &[u8],
    steps: &[u32],
    settings: &[i32],
    filled: usize,
    state: &mut [usize],
    place: &mut [usize],
    counts: &mut [usize],
) -> i32
    ensures { RowsTold
        settings.now
        steps.now
        (keeping vedge.now hedge.now sqw.now sqh.now qindex.now tiles.now keep.now)
        state.old
        filled
        plane.old
        place.old
        counts.old
        result
        plane.new
        state.new
        place.new
        counts.new }
{
    let lists = lists_check(settings, state);
    if let Err(r) = lists {
        return told_refusal(r, place, counts);
    }
    let s = plane_of(settings);
    let held = state[0];
    let was = RowState {
        held: held,
        spent: false,
    };
    let a = deblock_rows(
        plane, vedge, hedge, sqw, sqh, qindex, tiles, keep, steps, s, was, filled,
    );
    let next = a.state;
    hold(state, next);
    told_rows(a, place, counts)
}
