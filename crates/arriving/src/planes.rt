// A plane by what the settings ask for: deblocked by bands over its own grid, or passed on as it is.
ghost use Rattle.std.specs.Prelude.{◌≤◌, length};
ghost use Rattle.pictures.specs.Shapes.{ShapeFits};
ghost use Rattle.frame_checks.specs.Settings.{Sized};
ghost use Rattle.frame_by_settings.specs.Framed.{ListsLong};

use crate::banded::bands;
use crate::carry::{Way, read_rows, write_rows};
use crate::passed::Stop;
use by_settings::kept::keep_cells;
use by_settings::kinds::STEPS;
use by_settings::lists::{lists_of, steps_of};
use frame_by_settings::deblocking::{indices, marks};
use frame_checks::parts::{kind_on, plane_of, q_of, tu_of};
use grid::tx_grid::build_tx_grid;
use gridded::spans::{leaves_of, tiles_of};
use qindex::qindex_grid::build_qindex_grid;
use rules::counts::Counts;
use rules::settings::Frame;
use streams::counts::none;
use streams::kept::cells_of;

// A plane that is not deblocked, row by row.
fn copied(plane: &mut [u16], way: Way<'_>) -> Result<Counts, Stop>
    requires { ShapeFits way.shape }
{
    let shape = way.shape;
    let mut bytes = [0u8; 8192];
    for r in 0..shape.height {
        read_rows(&mut bytes, plane, way, r, r + 1)?;
        write_rows(plane, way, r, r + 1)?;
    }
    Ok(none())
}

// A plane over its own grid: marks and sizes from the leaves, qindex from the superblocks, keep marks from the rectangles.
fn over_grid(
    plane: &mut [u16],
    leaves: &[u16],
    skips: &[u16],
    sbq: &[u16],
    rectangles: &[u16],
    tiles: &[u16],
    steps: &[u32],
    f: Frame,
    chroma: bool,
    way: Way<'_>,
) -> Result<Counts, Stop>
    requires { Sized f × ShapeFits way.shape }
{
    let mut vedge = marks();
    let mut hedge = marks();
    let mut sqw = marks();
    let mut sqh = marks();
    let mut keep = marks();
    let mut qindex = indices();
    let t = tu_of(f, chroma);
    // a grid that is refused stays without an edge; why it is was answered with the settings
    let _ = build_tx_grid(
        leaves, skips, &mut vedge, &mut hedge, &mut sqw, &mut sqh, &mut keep, t,
    );
    let _ = build_qindex_grid(sbq, &mut qindex, q_of(f, chroma));
    keep_cells(&mut keep, rectangles, cells_of(way.shape, t.ssx, t.ssy));
    bands(
        plane,
        &vedge,
        &hedge,
        &sqw,
        &sqh,
        &qindex,
        tiles,
        &keep,
        steps,
        plane_of(f, chroma),
        way,
    )
}

// A plane that is deblocked, by the settings' own lists.
fn deblocked(
    plane: &mut [u16],
    shorts: &[u16],
    steps: &[u32],
    places: &[usize],
    f: Frame,
    chroma: bool,
    way: Way<'_>,
) -> Result<Counts, Stop>
    requires { ListsLong (length shorts.now) (length steps.now) (length places.now) × Sized f × ShapeFits way.shape }
{
    let at = lists_of(places, shorts.len());
    let n = steps_of(places[STEPS]);
    let leaves = leaves_of(at, chroma, shorts.len());
    let tiles = tiles_of(at, chroma, shorts.len());
    let skips = &shorts[at.skips..at.skipsend];
    let keeps = &shorts[at.keeps..at.keepsend];
    over_grid(
        plane,
        &shorts[leaves.from..leaves.end],
        skips,
        &shorts[..at.entries],
        keeps,
        &shorts[tiles.from..tiles.end],
        &steps[..n],
        f,
        chroma,
        way,
    )
}

// A plane of luma or of chroma, by whether the settings have it deblocked.
pub fn pass_plane(
    plane: &mut [u16],
    shorts: &[u16],
    steps: &[u32],
    places: &[usize],
    f: Frame,
    chroma: bool,
    way: Way<'_>,
) -> Result<Counts, Stop>
    requires { ListsLong (length shorts.now) (length steps.now) (length places.now) × Sized f × ShapeFits way.shape }
{
    if kind_on(f, chroma) {
        return deblocked(plane, shorts, steps, places, f, chroma, way);
    }
    copied(plane, way)
}
