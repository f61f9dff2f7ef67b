// Document 01, refusal 8 of a plane: the first sample over top, in 4·mi_cols by 4·mi_rows.
ghost use Rattle.std.specs.Prelude.{◌≡◌, true, ◌*◌, ◌≤◌, length};
ghost use Rattle.rules.specs.Numbers.{depth_ok};
ghost use Rattle.rules.specs.Plane.{over_plane};
ghost use Rattle.cell_edges.specs.Cells.{Sizes};

use checks::samples;
use rules::depth::Depth;
use rules::settings::Plane;

// The first sample of a plane that is over the depth's top.
pub fn over_plane(plane: &[u16], s: Plane) -> Option<usize>
    requires { Sizes s × (depth_ok s.depth ≡ true) × (4 * s.rows * s.stride ≤ length plane.now) }
    ensures { result ≡ over_plane s plane.now }
{
    let depth = Depth { bits: s.depth };
    samples(plane, 0, s.stride, 4 * s.cols, 4 * s.rows, depth.top())
}
