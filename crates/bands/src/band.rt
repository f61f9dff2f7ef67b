// The edges of a band: the vertical edges of the newly filled rows of cells, then the horizontal edges that are done now and were not before.
ghost use Rattle.std.specs.Prelude.{List, ℕ, ◌≤◌, length};
ghost use Rattle.rules.specs.Plane.{keeping};
ghost use Rattle.plane.specs.Run.{Table, Field};
ghost use Rattle.plane.specs.Checked.{Checked};
ghost use Rattle.bands.specs.Ran.{RanBand};

use crate::ready::ready_rows;
use checks::asked;
use plane::{Part, sweep, table_of};
use rules::counts::Visited;
use rules::depth::Depth;
use rules::settings::Plane;
use thresholds::by_qindex::thresholds_by_qindex;

// Both sweeps over a band, where the filled rows of cells grow from h to a; no record is written.
fn both_ways(
    plane: &mut [u16],
    vedge: &[u8],
    hedge: &[u8],
    sqw: &[u8],
    sqh: &[u8],
    qindex: &[u16],
    keep: &[u8],
    table: &[u32; 2440],
    s: Plane,
    h: usize,
    a: usize,
) -> Visited
    requires { Field s vedge.now sqw.now qindex.now table.now (length plane.old) 0 × Field s hedge.now sqh.now qindex.now table.now (length plane.old) 1 × (h ≤ a) × (a ≤ s.rows) }
    ensures { (steps ts : List ℕ) → Table s steps ts table.now
        → RanBand s steps (keeping vedge.now hedge.now sqw.now sqh.now qindex.now ts keep.now) h a plane.old result plane.new }
{
    let from = ready_rows(s.rows, h);
    let upto = ready_rows(s.rows, a);
    let none = Visited {
        bytes: 5,
        stored: 0,
        changed: 0,
    };
    let fresh = Part {
        row: h,
        rows: a - h,
        col: 0,
        cols: s.cols,
    };
    let vertical = sweep(
        plane,
        &mut [],
        vedge,
        sqw,
        qindex,
        keep,
        table,
        s,
        none,
        0,
        fresh,
    );
    let due = Part {
        row: from,
        rows: upto - from,
        col: 0,
        cols: s.cols,
    };
    sweep(
        plane,
        &mut [],
        hedge,
        sqh,
        qindex,
        keep,
        table,
        s,
        vertical,
        1,
        due,
    )
}

// Runs the edges of a checked plane whose filled rows of cells grow from h to a; where no cell is kept the sweeps are handed no keep marks.
pub fn run_band(
    plane: &mut [u16],
    vedge: &[u8],
    hedge: &[u8],
    sqw: &[u8],
    sqh: &[u8],
    qindex: &[u16],
    tiles: &[u16],
    keep: &[u8],
    steps: &[u32],
    s: Plane,
    h: usize,
    a: usize,
) -> Visited
    requires { Checked s steps.now (keeping vedge.now hedge.now sqw.now sqh.now qindex.now tiles.now keep.now) (length plane.old) × (h ≤ a) × (a ≤ s.rows) }
    ensures { RanBand s steps.now (keeping vedge.now hedge.now sqw.now sqh.now qindex.now tiles.now keep.now) h a plane.old result plane.new }
{
    let depth = Depth { bits: s.depth };
    let levels = thresholds_by_qindex(s.deltaq, s.deltaside, depth, steps);
    let table = table_of(&levels, tiles);
    let n = asked(keep, s.rows * s.cols);
    both_ways(
        plane,
        vedge,
        hedge,
        sqw,
        sqh,
        qindex,
        &keep[..n],
        &table,
        s,
        h,
        a,
    )
}
