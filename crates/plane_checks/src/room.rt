// Document 01, refusal 7: the first edge that lacks room, vertical edges row by row, then horizontal.
// No side reaches over 8 samples, so that an edge lacks room in the first and last columns or rows of edges alone,
// and none of a size index up to 1 reaches over 4, so that an edge lacks room by a larger one alone.
ghost use Rattle.std.specs.Prelude.{◌≡◌, List, [], ◌∷◌, ℕ, ◌+◌, ◌*◌, ◌≤◌, ◌<◌, leb, length};
ghost use Rattle.laws.specs.Choose.{all};
ghost use Rattle.rules.specs.Plane.{keeping, lacks_room, lacks_row, lacks_dir, no_room};
ghost use Rattle.cell_edges.specs.Cells.{Sizes, Cell, Inner, Indices, Ready, one_way};
ghost use Rattle.plane_checks.specs.Fit.{room_of, may_lack};

use cell_edges::pair::{cell_of, is_edge, pair_at, shortened_at};
use lengths::pairs::{reach_after, reach_before};
use rules::settings::Plane;

// Whether both reaches lie in the plane along an edge's lines, and the four lines beside each other.
fn along(at: usize, beside: usize, length: usize, breadth: usize, b: usize, a: usize) -> bool
    requires { (at ≤ 4096) × (beside ≤ 4096) × (a ≤ 8) }
    ensures { result ≡ all (leb b at ∷ leb (at + a) length ∷ leb (beside + 4) breadth ∷ []) }
{
    if at < b {
        return false;
    }
    if length < at + a {
        return false;
    }
    beside + 4 <= breadth
}

// Whether the edge of a cell has room, shortened or not.
fn edge_room(sizes: &[u8], s: Plane, shortened: bool, dir: usize, r: usize, c: usize) -> bool
    requires { Sizes s × Inner s dir r c × Indices s sizes.now }
    ensures { result ≡ room_of s sizes.now shortened dir r c }
{
    let pair = pair_at(sizes, s, shortened, dir, r, c);
    let b = reach_before(pair);
    let a = reach_after(pair);
    if dir == 0 {
        return along(c * 4, r * 4, 4 * s.cols, 4 * s.rows, b, a);
    }
    along(r * 4, c * 4, 4 * s.rows, 4 * s.cols, b, a)
}

// The cell, where it has an edge that lacks room.
fn lacks_room(
    marks: &[u8],
    sizes: &[u8],
    tiles: &[u16],
    s: Plane,
    dir: usize,
    r: usize,
    c: usize,
) -> Option<usize>
    requires { Ready s marks.now sizes.now × Cell s r c }
    ensures { result ≡ lacks_room s (one_way marks.now sizes.now [] tiles.now) dir r c }
{
    if !is_edge(marks, s, dir, r, c) {
        return None;
    }
    let shortened = shortened_at(tiles, s, dir, r, c);
    if edge_room(sizes, s, shortened, dir, r, c) {
        return None;
    }
    Some(cell_of(s, r, c))
}

// Whether a cell is marked and of a size index over 1: other cells have no edge that lacks room.
fn may_lack(marks: &[u8], sizes: &[u8], s: Plane, r: usize, c: usize) -> bool
    requires { Ready s marks.now sizes.now × Cell s r c }
    ensures { result ≡ may_lack s marks.now sizes.now r c }
{
    let i = cell_of(s, r, c);
    if sizes[i] <= 1 {
        return false;
    }
    marks[i] == 1
}

// The cell, where it has a vertical edge that lacks room.
fn lacks_left(
    vedge: &[u8],
    sqw: &[u8],
    tiles: &[u16],
    s: Plane,
    r: usize,
    c: usize,
) -> Option<usize>
    requires { Ready s vedge.now sqw.now × Cell s r c }
    ensures { result ≡ lacks_room s (one_way vedge.now sqw.now [] tiles.now) 0 r c }
{
    if !may_lack(vedge, sqw, s, r, c) {
        return None;
    }
    lacks_room(vedge, sqw, tiles, s, 0, r, c)
}

// The first vertical edge of a row that lacks room: in its first or last column of edges.
fn lacks_ends(vedge: &[u8], sqw: &[u8], tiles: &[u16], s: Plane, r: usize) -> Option<usize>
    requires { Ready s vedge.now sqw.now × (r < s.rows) }
    ensures { result ≡ lacks_row s (one_way vedge.now sqw.now [] tiles.now) 0 r }
{
    let cols = s.cols;
    if cols < 2 {
        return None;
    }
    let f = lacks_left(vedge, sqw, tiles, s, r, 1);
    if let Some(k) = f {
        return Some(k);
    }
    lacks_left(vedge, sqw, tiles, s, r, cols - 1)
}

// The first vertical edge that lacks room.
fn lacks_vert(vedge: &[u8], sqw: &[u8], tiles: &[u16], s: Plane) -> Option<usize>
    requires { Ready s vedge.now sqw.now }
    ensures { result ≡ lacks_dir s (one_way vedge.now sqw.now [] tiles.now) 0 }
{
    let rows = s.rows;
    for r in 0..rows {
        let f = lacks_ends(vedge, sqw, tiles, s, r);
        if let Some(k) = f {
            return Some(k);
        }
    }
    None
}

// The cell, where it has a horizontal edge that lacks room: no tile shortens one.
fn lacks_above(hedge: &[u8], sqh: &[u8], s: Plane, r: usize, c: usize) -> Option<usize>
    requires { Ready s hedge.now sqh.now × Cell s r c }
    ensures { result ≡ lacks_room s (one_way hedge.now sqh.now [] []) 1 r c }
{
    if !may_lack(hedge, sqh, s, r, c) {
        return None;
    }
    lacks_room(hedge, sqh, &[], s, 1, r, c)
}

// The first horizontal edge of a row that lacks room.
fn lacks_row(hedge: &[u8], sqh: &[u8], s: Plane, r: usize) -> Option<usize>
    requires { Ready s hedge.now sqh.now × (r < s.rows) }
    ensures { result ≡ lacks_row s (one_way hedge.now sqh.now [] []) 1 r }
{
    let cols = s.cols;
    for c in 0..cols {
        let f = lacks_above(hedge, sqh, s, r, c);
        if let Some(k) = f {
            return Some(k);
        }
    }
    None
}

// The first horizontal edge that lacks room: in the first or last row of edges.
fn lacks_horz(hedge: &[u8], sqh: &[u8], s: Plane) -> Option<usize>
    requires { Ready s hedge.now sqh.now }
    ensures { result ≡ lacks_dir s (one_way hedge.now sqh.now [] []) 1 }
{
    let rows = s.rows;
    if rows < 2 {
        return None;
    }
    let f = lacks_row(hedge, sqh, s, 1);
    if let Some(k) = f {
        return Some(k);
    }
    lacks_row(hedge, sqh, s, rows - 1)
}

// The first edge of a plane that lacks room, whatever the qindex and the keep marks.
pub fn no_room(
    vedge: &[u8],
    hedge: &[u8],
    sqw: &[u8],
    sqh: &[u8],
    tiles: &[u16],
    s: Plane,
) -> Option<usize>
    requires { Ready s vedge.now sqw.now × Ready s hedge.now sqh.now }
    ensures { (q ks : List ℕ) → result ≡ no_room s (keeping vedge.now hedge.now sqw.now sqh.now q tiles.now ks) }
{
    let f = lacks_vert(vedge, sqw, tiles, s);
    if let Some(k) = f {
        return Some(k);
    }
    lacks_horz(hedge, sqh, s)
}
