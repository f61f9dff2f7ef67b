// A checked plane's run, and the plane's entry on any input.
ghost use Rattle.std.specs.Prelude.{length};
ghost use Rattle.rules.specs.Plane.{keeping};
ghost use Rattle.plane.specs.Checked.{Checked, Noted, Filtered, Stated};

use crate::check::plane_check;
use crate::order::run;
use crate::table::table_of;
use checks::asked;
use rules::counts::{Counts, Visited};
use rules::depth::Depth;
use rules::refusals::Refusal;
use rules::settings::Plane;
use thresholds::by_qindex::thresholds_by_qindex;

// Runs every edge of a checked plane, and notes it in the record where that has room; the thresholds of each qindex and the tile starts are made a table once,
// and where no cell is kept the walk is handed no keep marks.
pub fn run_noted(
    plane: &mut [u16],
    buffer: &mut [u8],
    vedge: &[u8],
    hedge: &[u8],
    sqw: &[u8],
    sqh: &[u8],
    qindex: &[u16],
    tiles: &[u16],
    keep: &[u8],
    steps: &[u32],
    s: Plane,
) -> Visited
    requires { Checked s steps.now (keeping vedge.now hedge.now sqw.now sqh.now qindex.now tiles.now keep.now) (length plane.old) }
    ensures { Noted s steps.now (keeping vedge.now hedge.now sqw.now sqh.now qindex.now tiles.now keep.now) plane.old buffer.old result plane.new buffer.new }
{
    let depth = Depth { bits: s.depth };
    let levels = thresholds_by_qindex(s.deltaq, s.deltaside, depth, steps);
    let table = table_of(&levels, tiles);
    let n = asked(keep, s.rows * s.cols);
    run(
        plane,
        buffer,
        vedge,
        hedge,
        sqw,
        sqh,
        qindex,
        &keep[..n],
        &table,
        s,
    )
}

// Runs every edge of a checked plane: the same run, with no record.
pub fn run_plane(
    plane: &mut [u16],
    vedge: &[u8],
    hedge: &[u8],
    sqw: &[u8],
    sqh: &[u8],
    qindex: &[u16],
    tiles: &[u16],
    keep: &[u8],
    steps: &[u32],
    s: Plane,
) -> Visited
    requires { Checked s steps.now (keeping vedge.now hedge.now sqw.now sqh.now qindex.now tiles.now keep.now) (length plane.old) }
    ensures { Filtered s steps.now (keeping vedge.now hedge.now sqw.now sqh.now qindex.now tiles.now keep.now) plane.old result plane.new }
{
    run_noted(
        plane,
        &mut [],
        vedge,
        hedge,
        sqw,
        sqh,
        qindex,
        tiles,
        keep,
        steps,
        s,
    )
}

// Deblocks a plane and tells how many samples it stored and changed; or refuses it, leaves it as lent and tells of none.
pub fn deblock_plane(
    plane: &mut [u16],
    vedge: &[u8],
    hedge: &[u8],
    sqw: &[u8],
    sqh: &[u8],
    qindex: &[u16],
    tiles: &[u16],
    keep: &[u8],
    steps: &[u32],
    s: Plane,
) -> Result<Counts, Refusal>
    ensures { Stated s steps.now (keeping vedge.now hedge.now sqw.now sqh.now qindex.now tiles.now keep.now) plane.old result plane.new }
{
    plane_check(plane, vedge, hedge, sqw, sqh, qindex, tiles, keep, steps, s)?;
    let done = run_plane(plane, vedge, hedge, sqw, sqh, qindex, tiles, keep, steps, s);
    Ok(Counts {
        stored: done.stored,
        changed: done.changed,
    })
}
