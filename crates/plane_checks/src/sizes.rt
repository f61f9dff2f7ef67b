// Document 01, "Numbers accepted", of a plane: its sizes and the lengths of its lists.
ghost use Rattle.std.specs.Prelude.{◌≡◌, List, ℕ, eqb, length};
ghost use Rattle.laws.specs.Choose.{either};
ghost use Rattle.rules.specs.Plane.{keeping, plane_sizes_ok, plane_lengths_ok};
ghost use Rattle.cell_edges.specs.Cells.{Sizes};

use checks::in_range;
use rules::settings::Plane;

// A superblock is 8 or 16 cells wide and high.
fn superblock_ok(n: usize) -> bool
    ensures { result ≡ either (eqb n 8) (eqb n 16) }
{
    if n == 8 {
        return true;
    }
    n == 16
}

// Every size is in its range; a cell count is tested before it is multiplied.
pub fn sizes_ok(s: Plane) -> bool
    ensures { result ≡ plane_sizes_ok s }
{
    if !in_range(1, 1024, s.cols) {
        return false;
    }
    if !in_range(1, 1024, s.rows) {
        return false;
    }
    if !in_range(4 * s.cols, 8192, s.stride) {
        return false;
    }
    if !in_range(1, 4 * s.cols, s.width) {
        return false;
    }
    if !in_range(1, 4 * s.rows, s.height) {
        return false;
    }
    if !superblock_ok(s.sbw) {
        return false;
    }
    superblock_ok(s.sbh)
}

// Every list is long enough, whatever the tiles.
pub fn lengths_ok(
    plane: &[u16],
    vedge: &[u8],
    hedge: &[u8],
    sqw: &[u8],
    sqh: &[u8],
    qindex: &[u16],
    keep: &[u8],
    s: Plane,
) -> bool
    requires { Sizes s }
    ensures { (ts : List ℕ) → result ≡ plane_lengths_ok s (keeping vedge.now hedge.now sqw.now sqh.now qindex.now ts keep.now) (length plane.now) }
{
    if plane.len() < 4 * s.rows * s.stride {
        return false;
    }
    let cells = s.rows * s.cols;
    if vedge.len() < cells {
        return false;
    }
    if hedge.len() < cells {
        return false;
    }
    if sqw.len() < cells {
        return false;
    }
    if sqh.len() < cells {
        return false;
    }
    if qindex.len() < cells {
        return false;
    }
    cells <= keep.len()
}
