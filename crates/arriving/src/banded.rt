// The bands of a plane that is deblocked: each is read, handed to ticket 8's entry with the state that the band before left, and what is final then is written.
ghost use Rattle.std.specs.Prelude.{◌<◌, ◌≤◌};
ghost use Rattle.pictures.specs.Shapes.{ShapeFits};

use crate::carry::{Way, read_rows, write_rows};
use crate::passed::Stop;
use rows::deblock_rows;
use rules::counts::Counts;
use rules::rows::{RowState, RowsAnswer};
use rules::settings::Plane;
use streams::counts::{both, none};

// Where a band ends that begins with a row: it has sixteen rows, or those that are left.
fn band_end(first: usize, rows: usize) -> usize
    requires { (first < rows) × (rows ≤ 4096) }
    ensures { (first < result) × (result ≤ rows) }
{
    rows.min(first + 16)
}

// What an answer makes of its band: the rows that are final now, and were not before, are written.
fn settled(plane: &[u16], way: Way<'_>, before: usize, a: RowsAnswer) -> Result<Counts, Stop>
    requires { ShapeFits way.shape }
{
    if let Err(r) = a.answer {
        return Err(Stop::Refused(r));
    }
    write_rows(plane, way, before, a.finalrows)?;
    Ok(Counts {
        stored: a.stored,
        changed: a.changed,
    })
}

// Every band of a plane, up to the first that does not pass.
pub fn bands(
    plane: &mut [u16],
    vedge: &[u8],
    hedge: &[u8],
    sqw: &[u8],
    sqh: &[u8],
    qindex: &[u16],
    tiles: &[u16],
    keep: &[u8],
    steps: &[u32],
    s: Plane,
    way: Way<'_>,
) -> Result<Counts, Stop>
    requires { ShapeFits way.shape }
{
    let shape = way.shape;
    let mut bytes = [0u8; 8192];
    let mut state = RowState {
        held: 0,
        spent: false,
    };
    let mut counts = none();
    let mut filled: usize = 0;
    let mut done: usize = 0;
    // A `while`: each band says where the next one begins.
    while filled < shape.rows {
        let end = band_end(filled, shape.rows);
        read_rows(&mut bytes, plane, way, filled, end)?;
        let a = deblock_rows(
            plane, vedge, hedge, sqw, sqh, qindex, tiles, keep, steps, s, state, end,
        );
        counts = both(counts, settled(plane, way, done, a)?);
        state = a.state;
        done = a.finalrows;
        filled = end;
    }
    Ok(counts)
}
