// The edge of a cell: its place, its pair of lengths, and its thresholds from the plane's table.
ghost use Rattle.std.specs.Prelude.{◌≡◌, ◌*◌, ◌≤◌, length, true};
ghost use Rattle.rules.specs.Numbers.{depth_ok};
ghost use Rattle.cell_edges.specs.Cells.{Sizes, Inner, Indices, short_by};
ghost use Rattle.plane.specs.Run.{Levels, start_by, IsEdgeAt};

use crate::table::entry;
use cell_edges::pair::{cell_before, cell_of, pair_at};
use rules::edge::Edge;
use rules::settings::Plane;
use thresholds::by_qindex::{q_of, side_of};

// The edge of a cell that has one.
pub fn edge_at(
    sizes: &[u8],
    qindex: &[u16],
    table: &[u32; 2440],
    s: Plane,
    shortened: bool,
    dir: usize,
    r: usize,
    c: usize,
) -> Edge
    requires { Sizes s × Inner s dir r c × Indices s sizes.now × (s.rows * s.cols ≤ length qindex.now) × Levels table.now × (depth_ok s.depth ≡ true) × (shortened ≡ short_by s (start_by table.now c) dir r) }
    ensures { IsEdgeAt s table.now sizes.now qindex.now dir r c result }
{
    let i = cell_of(s, r, c);
    let j = cell_before(s, dir, r, c);
    let a = entry(table, qindex[i]);
    let b = entry(table, qindex[j]);
    let pair = pair_at(sizes, s, shortened, dir, r, c);
    let q = q_of(a, b);
    let side = side_of(a, b);
    Edge {
        x: c * 4,
        y: r * 4,
        dir: dir,
        pair: pair,
        q: q,
        side: side,
    }
}
