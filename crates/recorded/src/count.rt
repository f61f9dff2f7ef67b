// How many edges of a plane are marked, column 0 and row 0 left out: the record's room is known before anything is written.
ghost use Rattle.std.specs.Prelude.{◌≡◌, List, ℕ, ◌*◌, ◌≤◌, ◌<◌, length};
ghost use Rattle.laws.specs.Sums.{sum};
ghost use Rattle.laws.specs.Tests.{bit};
ghost use Rattle.rules.specs.Plane.{keeping};
ghost use Rattle.rules.specs.Record.{edge_count};
ghost use Rattle.cell_edges.specs.Cells.{Sizes};
ghost use Rattle.recorded.specs.Count.{Marks, in_cell, in_row};

use cell_edges::pair::is_edge;
use rules::settings::Plane;

fn one_if(there: bool) -> usize
    ensures { (result ≡ bit there) × (result ≤ 1) }
{
    if there { 1 } else { 0 }
}

// Of both sides of a cell.
fn in_cell(vedge: &[u8], hedge: &[u8], s: Plane, r: usize, c: usize) -> usize
    requires { Marks s (length vedge.now) (length hedge.now) × (r < s.rows) × (c < s.cols) }
    ensures { (result ≡ in_cell s vedge.now hedge.now r c) × (result ≤ 2) }
{
    one_if(is_edge(vedge, s, 0, r, c)) + one_if(is_edge(hedge, s, 1, r, c))
}

// Of a row of cells.
fn in_row(vedge: &[u8], hedge: &[u8], s: Plane, r: usize) -> usize
    requires { Marks s (length vedge.now) (length hedge.now) × (r < s.rows) }
    ensures { (result ≡ in_row s vedge.now hedge.now r) × (result ≤ 2048) }
{
    let mut n = 0;
    for c in 0..s.cols {
        n += in_cell(vedge, hedge, s, r, c);
    }
    n
}

// Of all cells; the other lists of the grid do not matter.
pub fn edge_count(vedge: &[u8], hedge: &[u8], s: Plane) -> usize
    requires { Marks s (length vedge.now) (length hedge.now) }
    ensures { ((w t q ts ks : List ℕ) → result ≡ edge_count s (keeping vedge.now hedge.now w t q ts ks)) × (result ≤ 2097152) }
{
    let mut n = 0;
    for r in 0..s.rows {
        n += in_row(vedge, hedge, s, r);
    }
    n
}
