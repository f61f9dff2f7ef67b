// A leaf on a plane's cells: its place and size shifted by the subsampling, and its TU size.
ghost use Rattle.std.specs.Prelude.{◌≡◌, ◌≤◌, max, eqb};
ghost use Rattle.laws.specs.Choose.{both};
ghost use Rattle.rules.specs.Numbers.{down};
ghost use Rattle.rules.specs.TuGrid.{whole_of, tu_of, tile_of};
ghost use Rattle.tiles.specs.Fit.{Cut};

use super::leaf::{bare, flag, wide};
use rounding::shifted;
use rules::settings::{Tile, TuGrid};

// A leaf's bare size on the plane's cells.
fn size(ss: usize, n: usize) -> usize
    requires { ss ≤ 1 }
    ensures { result ≡ max 1 (down ss n) }
{
    let m = shifted(ss, n);
    if m < 1 {
        return 1;
    }
    m
}

fn is_pair(bw: usize, bh: usize, w: usize, h: usize) -> bool
    ensures { result ≡ both (eqb bw w) (eqb bh h) }
{
    if bw == w {
        return bh == h;
    }
    false
}

// Whether a leaf is one TU.
fn is_whole(skip: bool, w: u16, bw: usize, bh: usize) -> bool
    ensures { result ≡ whole_of skip w bw bh }
{
    if skip {
        return true;
    }
    if flag(w) {
        return true;
    }
    if is_pair(bw, bh, 4, 16) {
        return true;
    }
    is_pair(bw, bh, 16, 4)
}

fn tu(whole: bool, size: usize, cap: usize) -> usize
    ensures { result ≡ tu_of whole size cap }
{
    if whole {
        return size;
    }
    if size < cap {
        return size;
    }
    cap
}

pub fn tile_of(s: TuGrid, skip: bool, row: u16, col: u16, w: u16, h: u16) -> Tile
    requires { Cut s }
    ensures { result ≡ tile_of s skip row col w h }
{
    let fw = bare(w);
    let fh = bare(h);
    let bw = size(s.ssx, fw);
    let bh = size(s.ssy, fh);
    let whole = is_whole(skip, w, bw, bh);
    Tile {
        row: shifted(s.ssy, wide(row)),
        col: shifted(s.ssx, wide(col)),
        w: bw,
        h: bh,
        tw: tu(whole, bw, s.capw),
        th: tu(whole, bh, s.caph),
    }
}
