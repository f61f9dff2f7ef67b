// Document 01, "Grid cells: two marks (0 or 1) and two size indices 0..6.", and document 02's third mark: the first cell that has others.
ghost use Rattle.std.specs.Prelude.{◌≡◌, List, [], ℕ, ◌+◌, ◌*◌, length};
ghost use Rattle.rules.specs.Plane.{keeping, cell_good, bad_cell};
ghost use Rattle.cell_edges.specs.Cells.{Sizes};
ghost use Rattle.plane_checks.specs.Fit.{CellsLong, small, bad_of};

use rules::settings::Plane;

// Whether no number of the grid is too large, by the largest mark and the largest size index: all lists in one loop, which is shorter than one for each.
fn all_good(vedge: &[u8], hedge: &[u8], sqw: &[u8], sqh: &[u8], keep: &[u8], count: usize) -> bool
    requires { CellsLong count (length vedge.now) (length hedge.now) (length sqw.now) (length sqh.now) (length keep.now) }
    ensures { result ≡ small count (keeping vedge.now hedge.now sqw.now sqh.now [] [] keep.now) }
{
    let mut mark: u8 = 0;
    let mut size: u8 = 0;
    for k in 0..count {
        mark = mark.max(vedge[k].max(hedge[k].max(keep[k])));
        size = size.max(sqw[k].max(sqh[k]));
    }
    if 1 < mark {
        return false;
    }
    size <= 6
}

// Whether the marks and size indices of one cell are good.
fn cell_good(vedge: &[u8], hedge: &[u8], sqw: &[u8], sqh: &[u8], keep: &[u8], k: usize) -> bool
    requires { CellsLong (k + 1) (length vedge.now) (length hedge.now) (length sqw.now) (length sqh.now) (length keep.now) }
    ensures { result ≡ cell_good (keeping vedge.now hedge.now sqw.now sqh.now [] [] keep.now) k }
{
    if 1 < vedge[k] {
        return false;
    }
    if 1 < hedge[k] {
        return false;
    }
    if 6 < sqw[k] {
        return false;
    }
    if 6 < sqh[k] {
        return false;
    }
    keep[k] <= 1
}

// The first of count cells that is not good.
fn first_bad(
    vedge: &[u8],
    hedge: &[u8],
    sqw: &[u8],
    sqh: &[u8],
    keep: &[u8],
    count: usize,
) -> Option<usize>
    requires { CellsLong count (length vedge.now) (length hedge.now) (length sqw.now) (length sqh.now) (length keep.now) }
    ensures { result ≡ bad_of count (keeping vedge.now hedge.now sqw.now sqh.now [] [] keep.now) }
{
    for k in 0..count {
        if !cell_good(vedge, hedge, sqw, sqh, keep, k) {
            return Some(k);
        }
    }
    None
}

// The first bad cell of a plane's grid, whatever its qindex and tiles: the largest numbers first, since a cell is seldom bad, and the place only where one is.
pub fn bad_cell(
    vedge: &[u8],
    hedge: &[u8],
    sqw: &[u8],
    sqh: &[u8],
    keep: &[u8],
    s: Plane,
) -> Option<usize>
    requires { Sizes s × CellsLong (s.rows * s.cols) (length vedge.now) (length hedge.now) (length sqw.now) (length sqh.now) (length keep.now) }
    ensures { (q ts : List ℕ) → result ≡ bad_cell s (keeping vedge.now hedge.now sqw.now sqh.now q ts keep.now) }
{
    let count = s.rows * s.cols;
    if all_good(vedge, hedge, sqw, sqh, keep, count) {
        return None;
    }
    first_bad(vedge, hedge, sqw, sqh, keep, count)
}
