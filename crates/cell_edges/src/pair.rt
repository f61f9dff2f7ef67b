// The edge of a cell, as far as its grid alone says: whether it is there, the cell before it, its size index and its pair of lengths.
// Direction 0 is the cell's left side, 1 its upper side; marks and sizes are the direction's own lists.
ghost use Rattle.std.specs.Prelude.{◌≡◌, ◌+◌, ◌*◌, ◌≤◌, ◌<◌, eqb, length};
ghost use Rattle.laws.specs.Choose.{pick};
ghost use Rattle.rules.specs.Lengths.{pair_of};
ghost use Rattle.rules.specs.Plane.{cell_of, cell_before, capped_of, index_at, shortened_at, is_edge};
ghost use Rattle.cell_edges.specs.Cells.{Sizes, Cell, Inner, Indices, sized, marked, starting, short_by};

use crate::starts::starts_tile;
use lengths::ladder::filter_lengths;
use rules::settings::Plane;

fn wide(x: u8) -> usize
    ensures { result ≡ x }
{
    x as usize
}

// The first of two numbers in direction 0, the second in direction 1.
pub fn by_dir(dir: usize, a: usize, b: usize) -> usize
    ensures { result ≡ pick (eqb dir 0) a b }
{
    if dir == 0 { a } else { b }
}

// The number of a cell, row by row.
pub fn cell_of(s: Plane, r: usize, c: usize) -> usize
    requires { Sizes s × Cell s r c }
    ensures { (result ≡ cell_of s r c) × (result < s.rows * s.cols) }
{
    r * s.cols + c
}

// The number of the cell before an edge.
pub fn cell_before(s: Plane, dir: usize, r: usize, c: usize) -> usize
    requires { Sizes s × Inner s dir r c }
    ensures { (result ≡ cell_before s dir r c) × (result < s.rows * s.cols) }
{
    let i = cell_of(s, r, c);
    if dir == 0 {
        return i - 1;
    }
    i - s.cols
}

// A size index limited near the border.
fn capped(chroma: bool, place: usize, size: usize, m: usize) -> usize
    requires { (place ≤ 4096) × (m ≤ 6) }
    ensures { (result ≡ capped_of chroma place size m) × (result ≤ 6) }
{
    if chroma {
        if size < place + 8 { m.min(1) } else { m }
    } else {
        if size < place + 16 { m.min(2) } else { m }
    }
}

// The smaller size index of an edge's two cells, limited near the border.
fn index_at(sizes: &[u8], s: Plane, dir: usize, r: usize, c: usize) -> usize
    requires { Sizes s × Inner s dir r c × Indices s sizes.now }
    ensures { (result ≡ index_at s (sized sizes.now) dir r c) × (result ≤ 6) }
{
    let i = cell_of(s, r, c);
    let b = cell_before(s, dir, r, c);
    let m = wide(sizes[i]).min(wide(sizes[b]));
    capped(
        s.chroma,
        by_dir(dir, c * 4, r * 4),
        by_dir(dir, s.width, s.height),
        m,
    )
}

// Whether an edge is shortened, by whether its column starts a tile.
pub fn shortened_by(s: Plane, start: bool, dir: usize, r: usize) -> bool
    requires { Sizes s }
    ensures { result ≡ short_by s start dir r }
{
    if dir == 0 {
        return start;
    }
    r % s.sbh == 0
}

// The same by the list of tile starts, which direction 1 does not look at.
pub fn shortened_at(tiles: &[u16], s: Plane, dir: usize, r: usize, c: usize) -> bool
    requires { Sizes s }
    ensures { result ≡ shortened_at s (starting tiles.now) dir r c }
{
    if dir == 0 {
        return starts_tile(tiles, c);
    }
    r % s.sbh == 0
}

// The pair of lengths of an edge, shortened or not.
pub fn pair_at(sizes: &[u8], s: Plane, shortened: bool, dir: usize, r: usize, c: usize) -> usize
    requires { Sizes s × Inner s dir r c × Indices s sizes.now }
    ensures { (result ≡ pair_of (index_at s (sized sizes.now) dir r c) s.chroma shortened) × (result < 8) }
{
    filter_lengths(index_at(sizes, s, dir, r, c), s.chroma, shortened)
}

// Whether a cell has an edge.
pub fn is_edge(marks: &[u8], s: Plane, dir: usize, r: usize, c: usize) -> bool
    requires { Sizes s × Cell s r c × (s.rows * s.cols ≤ length marks.now) }
    ensures { result ≡ is_edge s (marked marks.now) dir r c }
{
    by_dir(dir, c, r) != 0 && marks[cell_of(s, r, c)] == 1
}
