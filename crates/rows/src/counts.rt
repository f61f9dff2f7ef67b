// What the counts of filled rows say: whether they are good, and how many rows are final.
ghost use Rattle.std.specs.Prelude.{◌≡◌, ◌≤◌};
ghost use Rattle.rules.specs.Rows.{final_of, count_ok, counts_ok};

// Whether so many rows of samples are in the plane and are whole rows of cells.
fn count_ok(rows: usize, n: usize) -> bool
    requires { rows ≤ 1024 }
    ensures { result ≡ count_ok rows n }
{
    if 4 * rows < n {
        return false;
    }
    n % 4 == 0
}

// Whether the held and the new count are good, and the new one is not below the held.
pub fn counts_ok(rows: usize, held: usize, filled: usize) -> bool
    requires { rows ≤ 1024 }
    ensures { result ≡ counts_ok rows held filled }
{
    if !count_ok(rows, held) {
        return false;
    }
    if !count_ok(rows, filled) {
        return false;
    }
    held <= filled
}

// How many rows of samples are final when so many are filled: all at full height, and else all but the last twelve.
pub fn final_rows(rows: usize, filled: usize) -> usize
    requires { rows ≤ 1024 }
    ensures { result ≡ final_of rows filled }
{
    if 4 * rows <= filled {
        return 4 * rows;
    }
    if filled < 12 {
        return 0;
    }
    filled - 12
}
