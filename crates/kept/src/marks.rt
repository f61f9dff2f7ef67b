// Document 02, ticket 7: which samples lie in kept cells, by the keep mark of each cell of 4x4 samples, row by row.
ghost use Rattle.std.specs.Prelude.{◌≡◌, true, ℕ, ◌+◌, ◌*◌, ◌-◌, ◌≤◌, ◌<◌, eqb, get_or};
ghost use Rattle.rules.specs.Segment.{kept_in};
ghost use Rattle.segment.specs.Fit.{InPlane};
ghost use Rattle.kept.specs.Kept.{FourOpen, Open};

use rules::edge::Edge;

// Whether a cell is kept; beyond the list none is.
fn marked(keep: &[u8], cell: usize) -> bool
    ensures { result ≡ eqb (get_or keep.now cell 0) 1 }
{
    keep.get(cell) == Some(&1)
}

// Which samples are kept: a keep mark for each cell, cols cells in a row, in rows of stride samples.
#[derive(Clone, Copy)]
pub struct Kept<'a> {
    pub keep: &'a [u8],
    pub cols: usize,
    pub stride: usize,
    ghost stride_some: { 1 ≤ stride },
    ghost row: { cols ≤ stride },
}

impl Kept<'_> {
    // Whether the sample at an offset lies in a kept cell.
    pub fn at(self, k: usize) -> bool
        ensures { result ≡ kept_in self.entry.cols self.entry.stride self.entry.keep.now k }
    {
        marked(
            self.keep,
            k / self.stride / 4 * self.cols + k % self.stride / 4,
        )
    }
}

// Whether none of four cells in a line is kept: two before a cell, it itself, and the next.
fn four_open(keep: &[u8], cell: usize, step: usize) -> bool
    requires { (cell + step < 18446744073709551616) × (2 * step < 18446744073709551616) }
    ensures { result ≡ true → FourOpen keep.now cell step }
{
    !marked(keep, cell)
        && !marked(keep, cell + step)
        && !marked(keep, cell.saturating_sub(step))
        && !marked(keep, cell.saturating_sub(2 * step))
}

// Whether no sample that an edge may store is kept, by the two cells on each side of it; an edge off the cells is not looked at.
pub fn all_open(keep: &[u8], cols: usize, e: Edge) -> bool
    requires { (e.y * cols + e.x < 18446744073709551616) × (4 * cols < 18446744073709551616) }
    ensures { (stride columns rows size : ℕ) → InPlane stride columns rows e size → result ≡ true → Open cols stride keep.now e }
{
    if e.x % 4 != 0 || e.y % 4 != 0 {
        return false;
    }
    let cell = e.y / 4 * cols + e.x / 4;
    if e.dir == 0 {
        return four_open(keep, cell, 1);
    }
    four_open(keep, cell, cols)
}
