// Parts of a plane's cells.
ghost use Rattle.std.specs.Prelude.{◌≡◌, ◌<◌};
ghost use Rattle.rules.specs.Plane.{sb_cols};
ghost use Rattle.cell_edges.specs.Cells.{Sizes};
ghost use Rattle.plane.specs.Run.{superblock_of};

use rules::settings::Plane;

// So many rows from a row, and so many columns from a column.
#[derive(Clone, Copy)]
pub struct Part {
    pub row: usize,
    pub rows: usize,
    pub col: usize,
    pub cols: usize,
}

// A superblock column: all rows of its columns.
pub fn superblock(s: Plane, sb: usize) -> Part
    requires { Sizes s × (sb < sb_cols s) }
    ensures { result ≡ superblock_of s sb }
{
    let start = sb * s.sbw;
    Part {
        row: 0,
        rows: s.rows,
        col: start,
        cols: s.sbw.min(s.cols - start),
    }
}
