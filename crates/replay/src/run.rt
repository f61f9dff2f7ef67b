// A checked record's edges run in order, and the entry on any input.
ghost use Rattle.std.specs.Prelude.{length};
ghost use Rattle.rules.specs.Record.{edges_in};
ghost use Rattle.replay.specs.Fit.{Runnable, Ran, Replayed};

use crate::check::{count, entry, replay_check};
use checks::asked;
use kept::filter_marked;
use rules::counts::Counts;
use rules::depth::Depth;
use rules::refusals::Refusal;
use rules::settings::Replay;
use std::num::wrapping_add_usize;

// Every edge of the record, one after the other, on the cells or off them; a record may be so long that the sums wrap. An empty list of keep marks keeps nothing.
fn run_record(plane: &mut [u16], bytes: &[u8], keep: &[u8], s: Replay, top: u16) -> Counts
    requires { Runnable s bytes.now (length plane.old) top }
    ensures { Ran s keep.now (edges_in bytes.now) plane.old result.stored result.changed plane.new }
{
    let n = count(bytes);
    let mut stored: usize = 0;
    let mut changed: usize = 0;
    for k in 0..n {
        let o = filter_marked(
            plane,
            keep,
            s.cols,
            s.stride,
            4 * s.cols,
            4 * s.rows,
            entry(bytes, k),
            top,
        );
        stored = wrapping_add_usize(stored, o.stored);
        changed = wrapping_add_usize(changed, o.changed);
    }
    Counts {
        stored: stored,
        changed: changed,
    }
}

// Runs a record on the unfiltered plane with its keep marks and tells how many samples it stored and changed; or refuses it, leaves the plane as lent and tells of none.
pub fn replay_plane(
    plane: &mut [u16],
    bytes: &[u8],
    keep: &[u8],
    s: Replay,
) -> Result<Counts, Refusal>
    ensures { Replayed s bytes.now keep.now plane.old result plane.new }
{
    replay_check(plane, bytes, keep, s)?;
    let depth = Depth { bits: s.depth };
    let n = asked(keep, s.rows * s.cols);
    Ok(run_record(plane, bytes, &keep[..n], s, depth.top()))
}
