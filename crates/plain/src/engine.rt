// The plain engine's entry: all vertical edges of a plane, rows in order, and then all horizontal edges, columns in order.
ghost use Rattle.rules.specs.Plane.{keeping};
ghost use Rattle.plane.specs.Checked.{Stated};

use bands::run_band;
use plane::plane_check;
use rules::counts::Counts;
use rules::refusals::Refusal;
use rules::settings::Plane;

// Deblocks a plane in the plain order and tells how many samples it stored and changed; or refuses it, leaves it as lent and tells of none.
pub fn deblock_plane_plain(
    plane: &mut [u16],
    vedge: &[u8],
    hedge: &[u8],
    sqw: &[u8],
    sqh: &[u8],
    qindex: &[u16],
    tiles: &[u16],
    keep: &[u8],
    steps: &[u32],
    s: Plane,
) -> Result<Counts, Refusal>
    ensures { Stated s steps.now (keeping vedge.now hedge.now sqw.now sqh.now qindex.now tiles.now keep.now) plane.old result plane.new }
{
    plane_check(plane, vedge, hedge, sqw, sqh, qindex, tiles, keep, steps, s)?;
    let done = run_band(
        plane, vedge, hedge, sqw, sqh, qindex, tiles, keep, steps, s, 0, s.rows,
    );
    Ok(Counts {
        stored: done.stored,
        changed: done.changed,
    })
}
