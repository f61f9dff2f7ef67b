// Painting tiles: marks at each TU's first column and row, and its size indices.
ghost use Rattle.std.specs.Prelude.{◌≡◌, true, false, ◌≤◌, ◌<◌, ◌/◌, ◌%◌, length};
ghost use Rattle.rules.specs.TuGrid.{marks, log2_of, mark_of, store_cell, paint_cell, paint_row, paint_of, tile_of, leaf_of, leaves_of, clear_of, blank_of};
ghost use Rattle.tiles.specs.Fit.{Cut, Placed, Good, AllGood};
ghost use Rattle.grid.specs.Fit.{GridFits};

use rules::settings::{Tile, TuGrid};
use tiles::tile::tile_of;

fn log2(n: usize) -> u8
    ensures { result ≡ log2_of n }
{
    match n {
        1 => 0,
        2 => 1,
        4 => 2,
        8 => 3,
        16 => 4,
        32 => 5,
        _ => 6,
    }
}

// Which line of its TU the line d of a tile is.
fn line_of(d: usize, t: usize) -> usize
    requires { 1 ≤ t }
    ensures { result ≡ d % t }
{
    d % t
}

// The mark of the line d of a tile cut every t lines.
fn mark(d: usize, t: usize) -> u8
    requires { 1 ≤ t }
    ensures { result ≡ mark_of d t }
{
    if line_of(d, t) == 0 { 1 } else { 0 }
}

fn store(
    vedge: &mut [u8],
    hedge: &mut [u8],
    sqw: &mut [u8],
    sqh: &mut [u8],
    at: usize,
    v: u8,
    h: u8,
    w: u8,
    t: u8,
)
    requires { (at < length vedge.old) × (at < length hedge.old) × (at < length sqw.old) × (at < length sqh.old) }
    ensures { marks vedge.new hedge.new sqw.new sqh.new ≡ store_cell at v h w t (marks vedge.old hedge.old sqw.old sqh.old) }
{
    vedge[at] = v;
    hedge[at] = h;
    sqw[at] = w;
    sqh[at] = t;
}

// One cell of a tile, where it lies in the plane.
fn cell(
    vedge: &mut [u8],
    hedge: &mut [u8],
    sqw: &mut [u8],
    sqh: &mut [u8],
    s: TuGrid,
    a: Tile,
    dr: usize,
    dc: usize,
)
    requires grid_fits { GridFits s (length vedge.old) (length hedge.old) (length sqw.old) (length sqh.old) }
    requires placed { Placed a }
    requires dr_lt_h { (dr < a.h) × (dc < a.w) }
    ensures { marks vedge.new hedge.new sqw.new sqh.new ≡ paint_cell s a dr dc (marks vedge.old hedge.old sqw.old sqh.old) }
{
    let r = a.row + dr;
    let c = a.col + dc;
    if s.rows <= r {
        return;
    }
    if s.cols <= c {
        return;
    }
    store(
        vedge,
        hedge,
        sqw,
        sqh,
        r * s.cols + c,
        mark(dc, a.tw),
        mark(dr, a.th),
        log2(a.tw),
        log2(a.th),
    );
}

fn row(
    vedge: &mut [u8],
    hedge: &mut [u8],
    sqw: &mut [u8],
    sqh: &mut [u8],
    s: TuGrid,
    a: Tile,
    dr: usize,
)
    requires grid_fits { GridFits s (length vedge.old) (length hedge.old) (length sqw.old) (length sqh.old) }
    requires placed { Placed a }
    requires dr_lt_h { dr < a.h }
    ensures { marks vedge.new hedge.new sqw.new sqh.new ≡ paint_row s a dr (marks vedge.old hedge.old sqw.old sqh.old) }
{
    let n = a.w;
    for dc in 0..n {
        cell(vedge, hedge, sqw, sqh, s, a, dr, dc);
    }
}

// A whole tile.
pub fn paint(vedge: &mut [u8], hedge: &mut [u8], sqw: &mut [u8], sqh: &mut [u8], s: TuGrid, a: Tile)
    requires grid_fits { GridFits s (length vedge.old) (length hedge.old) (length sqw.old) (length sqh.old) }
    requires placed { Placed a }
    ensures { marks vedge.new hedge.new sqw.new sqh.new ≡ paint_of s a (marks vedge.old hedge.old sqw.old sqh.old) }
{
    let n = a.h;
    for dr in 0..n {
        row(vedge, hedge, sqw, sqh, s, a, dr);
    }
}

// One leaf by its four numbers.
pub fn paint_leaf(
    vedge: &mut [u8],
    hedge: &mut [u8],
    sqw: &mut [u8],
    sqh: &mut [u8],
    s: TuGrid,
    skip: bool,
    row: u16,
    col: u16,
    w: u16,
    h: u16,
)
    requires grid_fits { GridFits s (length vedge.old) (length hedge.old) (length sqw.old) (length sqh.old) }
    requires cut { Cut s }
    requires good { Good row col w h }
    ensures { marks vedge.new hedge.new sqw.new sqh.new ≡ paint_of s (tile_of s skip row col w h) (marks vedge.old hedge.old sqw.old sqh.old) }
{
    let a = tile_of(s, skip, row, col, w, h);
    paint(vedge, hedge, sqw, sqh, s, a);
}

// Leaf k of a list of four numbers a leaf.
fn paint_at(
    vedge: &mut [u8],
    hedge: &mut [u8],
    sqw: &mut [u8],
    sqh: &mut [u8],
    ls: &[u16],
    s: TuGrid,
    skip: bool,
    k: usize,
)
    requires grid_fits { GridFits s (length vedge.old) (length hedge.old) (length sqw.old) (length sqh.old) }
    requires cut { Cut s }
    requires all_good { AllGood ls.now }
    requires k_in_bounds { k < length ls.now / 4 }
    ensures { marks vedge.new hedge.new sqw.new sqh.new ≡ paint_of s (leaf_of s skip ls.now k) (marks vedge.old hedge.old sqw.old sqh.old) }
{
    let at = k * 4;
    let row = ls[at];
    let col = ls[at + 1];
    let w = ls[at + 2];
    let h = ls[at + 3];
    paint_leaf(vedge, hedge, sqw, sqh, s, skip, row, col, w, h);
}

// The leaves of a list, later ones over earlier ones.
fn leaves(
    vedge: &mut [u8],
    hedge: &mut [u8],
    sqw: &mut [u8],
    sqh: &mut [u8],
    ls: &[u16],
    s: TuGrid,
    skip: bool,
)
    requires grid_fits { GridFits s (length vedge.old) (length hedge.old) (length sqw.old) (length sqh.old) }
    requires cut { Cut s }
    requires all_good { AllGood ls.now }
    ensures { marks vedge.new hedge.new sqw.new sqh.new ≡ leaves_of s skip ls.now (marks vedge.old hedge.old sqw.old sqh.old) }
{
    let n = ls.len() / 4;
    for k in 0..n {
        paint_at(vedge, hedge, sqw, sqh, ls, s, skip, k);
    }
}

// The leaves, and the skip leaves over them.
pub fn paint_lists(
    vedge: &mut [u8],
    hedge: &mut [u8],
    sqw: &mut [u8],
    sqh: &mut [u8],
    ls: &[u16],
    skips: &[u16],
    s: TuGrid,
)
    requires grid_fits { GridFits s (length vedge.old) (length hedge.old) (length sqw.old) (length sqh.old) }
    requires cut { Cut s }
    requires all_good { AllGood ls.now }
    requires all_good_2 { AllGood skips.now }
    ensures { marks vedge.new hedge.new sqw.new sqh.new ≡ leaves_of s true skips.now (leaves_of s false ls.now (marks vedge.old hedge.old sqw.old sqh.old)) }
{
    leaves(vedge, hedge, sqw, sqh, ls, s, false);
    leaves(vedge, hedge, sqw, sqh, skips, s, true);
}

// The first n entries 0, the others kept.
pub fn clear(xs: &mut [u8], n: usize)
    requires { n ≤ length xs.old }
    ensures { xs.new ≡ clear_of n xs.old }
{
    for i in 0..n {
        xs[i] = 0;
    }
}

// The first n entries of each list 0, the others kept.
pub fn blank(vedge: &mut [u8], hedge: &mut [u8], sqw: &mut [u8], sqh: &mut [u8], n: usize)
    requires { (n ≤ length vedge.old) × (n ≤ length hedge.old) × (n ≤ length sqw.old) × (n ≤ length sqh.old) }
    ensures { marks vedge.new hedge.new sqw.new sqh.new ≡ blank_of n (marks vedge.old hedge.old sqw.old sqh.old) }
{
    clear(vedge, n);
    clear(hedge, n);
    clear(sqw, n);
    clear(sqh, n);
}
