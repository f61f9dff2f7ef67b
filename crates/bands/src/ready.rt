// How far down a band's horizontal edges go.
ghost use Rattle.std.specs.Prelude.{◌≡◌};
ghost use Rattle.rules.specs.Rows.{ready};

// In how many rows of cells the horizontal edges are done when a rows of cells are filled: all but the last at most, since an edge reaches eight rows down.
pub fn ready_rows(rows: usize, a: usize) -> usize
    ensures { result ≡ ready rows a }
{
    if rows <= a {
        return rows;
    }
    if a == 0 {
        return 0;
    }
    a - 1
}
