// A plane's settings and grid, and what is done with them: a plane, a recorded plane, or rows filled call by call.
ghost use Rattle.std.specs.Prelude.{◌≡◌};

use cases::Line;
use rows_cases::Grid;
use rules::settings::Plane;
use tally::Outcome;

fn settings(line: &mut Line) -> Option<Plane> {
    Some(Plane {
        cols: line.large()?,
        rows: line.large()?,
        stride: line.large()?,
        width: line.large()?,
        height: line.large()?,
        sbw: line.size()?,
        sbh: line.size()?,
        chroma: line.flag()?,
        depth: line.number()?,
        deltaq: line.signed()?,
        deltaside: line.signed()?,
    })
}

// A line after its kind: what the kind does, with the grid that is read.
pub fn replay<F: FnOnce(Line, Grid) -> Option<Outcome>>(
    mut line: Line,
    steps: &[u32],
    kind: F,
) -> Option<Outcome>
    requires { F.IsAlwaysCallable kind }
{
    let mut vedge = [0u8; 16384];
    let mut hedge = [0u8; 16384];
    let mut sqw = [0u8; 16384];
    let mut sqh = [0u8; 16384];
    let mut qindex = [0u16; 16384];
    let mut tiles = [0u16; 2048];
    let mut keep = [0u8; 16384];
    let s = settings(&mut line)?;
    let g = Grid {
        s,
        steps,
        vedge: line.list(&mut vedge),
        hedge: line.list(&mut hedge),
        sqw: line.list(&mut sqw),
        sqh: line.list(&mut sqh),
        qindex: line.list(&mut qindex),
        tiles: line.list(&mut tiles),
        keep: line.list(&mut keep),
    };
    kind(line, g)
}
