// The checks of a call in ticket 8's order: 15, document 01's 1 to 7, 14, and 8 over the newly filled rows.
ghost use Rattle.std.specs.Prelude.{◌≡◌, true, List, ℕ, ◌*◌, ◌≤◌, length};
ghost use Rattle.std.specs.declared.result.Result.TheVariants.{Ok};
ghost use Rattle.rules.specs.Numbers.{depth_ok};
ghost use Rattle.rules.specs.Plane.{Grid};
ghost use Rattle.rules.specs.Rows.{settings_check, over_new, rows_check};
ghost use Rattle.cell_edges.specs.Cells.{Sizes};

use crate::counts::counts_ok;
use checks::samples;
use rules::depth::Depth;
use rules::refusals::Refusal;
use rules::rows::RowState;
use rules::settings::Plane;

// The first sample over top in the rows from held to filled.
fn over_new(plane: &[u16], s: Plane, held: usize, filled: usize) -> Option<usize>
    requires { Sizes s × (depth_ok s.depth ≡ true) × (4 * s.rows * s.stride ≤ length plane.now) × (held ≤ filled) × (filled ≤ 4 * s.rows) }
    ensures { result ≡ over_new s held filled plane.now }
{
    let depth = Depth { bits: s.depth };
    samples(
        plane,
        held * s.stride,
        s.stride,
        4 * s.cols,
        filled - held,
        depth.top(),
    )
}

// The first refusal of a call, or none, where document 01's 1 to 7 answer so.
pub fn rows_check(
    plane: &[u16],
    s: Plane,
    state: RowState,
    filled: usize,
    given: Result<(), Refusal>,
) -> Result<(), Refusal>
    requires { given ≡ Ok tt → Sizes s × (depth_ok s.depth ≡ true) × (4 * s.rows * s.stride ≤ length plane.now) }
    ensures { (steps : List ℕ) (g : Grid) → given ≡ settings_check s steps g (length plane.now) → result ≡ rows_check s steps g state filled plane.now }
{
    if state.spent {
        return Err(Refusal::Spent);
    }
    given?;
    if !counts_ok(s.rows, state.held, filled) {
        return Err(Refusal::Filled);
    }
    let over = over_new(plane, s, state.held, filled);
    if let Some(k) = over {
        return Err(Refusal::Sample(k));
    }
    Ok(())
}
