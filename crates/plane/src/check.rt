// Document 01's checks 1 to 8 of a plane, in their order, with document 02's checks of the tile starts and the keep marks; 1 to 7 also alone.
ghost use Rattle.std.specs.Prelude.{◌≡◌, List, ℕ, ◌*◌, length};
ghost use Rattle.rules.specs.Plane.{keeping, plane_check};
ghost use Rattle.rules.specs.Rows.{settings_check};
ghost use Rattle.cell_edges.specs.Cells.{Sizes};
ghost use Rattle.plane_checks.specs.Fit.{CellsLong};
ghost use Rattle.plane.specs.Checked.{grid_check};

use plane_checks::grid::bad_cell;
use plane_checks::room::no_room;
use plane_checks::samples::over_plane;
use plane_checks::sizes::{lengths_ok, sizes_ok};
use plane_checks::starts::tiles_check;
use rules::depth::Depth;
use rules::refusals::Refusal;
use rules::settings::Plane;
use thresholds::tests::{deltas_check, steps_check};

// The checks of what the cells hold, 6 and 7, whatever the qindex.
fn grid_check(
    vedge: &[u8],
    hedge: &[u8],
    sqw: &[u8],
    sqh: &[u8],
    tiles: &[u16],
    keep: &[u8],
    s: Plane,
) -> Result<(), Refusal>
    requires { Sizes s × CellsLong (s.rows * s.cols) (length vedge.now) (length hedge.now) (length sqw.now) (length sqh.now) (length keep.now) }
    ensures { (q : List ℕ) → result ≡ grid_check s (keeping vedge.now hedge.now sqw.now sqh.now q tiles.now keep.now) }
{
    let bad = bad_cell(vedge, hedge, sqw, sqh, keep, s);
    if let Some(k) = bad {
        return Err(Refusal::Cell(k));
    }
    let narrow = no_room(vedge, hedge, sqw, sqh, tiles, s);
    if let Some(k) = narrow {
        return Err(Refusal::Room(k));
    }
    Ok(())
}

// The first refusal of a plane by 1 to 7, which look at none of its samples, or none.
pub fn settings_check(
    plane: &[u16],
    vedge: &[u8],
    hedge: &[u8],
    sqw: &[u8],
    sqh: &[u8],
    qindex: &[u16],
    tiles: &[u16],
    keep: &[u8],
    steps: &[u32],
    s: Plane,
) -> Result<(), Refusal>
    ensures { result ≡ settings_check s steps.now (keeping vedge.now hedge.now sqw.now sqh.now qindex.now tiles.now keep.now) (length plane.now) }
{
    if !Depth::is(s.depth) {
        return Err(Refusal::Depth);
    }
    if !sizes_ok(s) {
        return Err(Refusal::Size);
    }
    if !lengths_ok(plane, vedge, hedge, sqw, sqh, qindex, keep, s) {
        return Err(Refusal::Length);
    }
    steps_check(steps)?;
    deltas_check(s.deltaq, s.deltaside)?;
    tiles_check(tiles, s.cols)?;
    grid_check(vedge, hedge, sqw, sqh, tiles, keep, s)
}

// The first refusal of a plane, or none.
pub fn plane_check(
    plane: &[u16],
    vedge: &[u8],
    hedge: &[u8],
    sqw: &[u8],
    sqh: &[u8],
    qindex: &[u16],
    tiles: &[u16],
    keep: &[u8],
    steps: &[u32],
    s: Plane,
) -> Result<(), Refusal>
    ensures { result ≡ plane_check s steps.now (keeping vedge.now hedge.now sqw.now sqh.now qindex.now tiles.now keep.now) plane.now }
{
    settings_check(plane, vedge, hedge, sqw, sqh, qindex, tiles, keep, steps, s)?;
    let over = over_plane(plane, s);
    if let Some(k) = over {
        return Err(Refusal::Sample(k));
    }
    Ok(())
}
