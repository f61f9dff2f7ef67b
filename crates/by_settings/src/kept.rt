// Which cells of a plane the settings keep: their rectangles, in luma cells, as marks of the plane's own cells.
ghost use Rattle.std.specs.Prelude.{◌≡◌, ◌+◌, ◌*◌, ◌≤◌, length, replicate};
ghost use Rattle.by_settings.specs.Rooms.{kinds, fewest_shorts};
ghost use Rattle.by_settings.specs.Kept.{first_in, count_in, rectangle_of, kept_by, kept_asked};

use crate::lists::lists_of;
use rectangle::keep_rectangle;
use rules::settings::Keep;
use tiles::leaf::wide;

// A plane's cells: so many columns and rows, and whether two of luma's columns or rows are one of them, 1 or 0.
#[derive(Clone, Copy)]
pub struct Cells {
    pub cols: usize,
    pub rows: usize,
    pub ssx: usize,
    pub ssy: usize,
}

// No cell kept of a plane of 512 by 512 samples at most.
pub fn small_marks() -> [u8; 16384]
    ensures { result ≡ replicate 16384 0 }
{
    [0; 16384]
}

// None of the largest plane.
pub fn large_marks() -> [u8; 1048576]
    ensures { result ≡ replicate 1048576 0 }
{
    [0; 1048576]
}

// The row or column that has luma's.
fn first_in(ss: usize, first: usize) -> usize
    ensures { result ≡ first_in ss first }
{
    if ss == 0 { first } else { first / 2 }
}

// How many rows or columns have one of luma's, of which there are count from first on.
fn count_in(ss: usize, first: u16, count: u16) -> usize
    ensures { result ≡ count_in ss first count }
{
    if ss == 0 {
        return wide(count);
    }
    if count == 0 {
        return 0;
    }
    let from = wide(first);
    (from + wide(count) + 1) / 2 - from / 2
}

// Rectangle i of a list, in the plane's own cells.
fn rectangle_at(rectangles: &[u16], i: usize, s: Cells) -> Keep
    requires { 4 * i + 4 ≤ length rectangles.now }
    ensures { result ≡ rectangle_of s rectangles.now i }
{
    let row = rectangles[4 * i];
    let column = rectangles[4 * i + 1];
    Keep {
        cols: s.cols,
        rows: s.rows,
        row: first_in(s.ssy, wide(row)),
        col: first_in(s.ssx, wide(column)),
        h: count_in(s.ssy, row, rectangles[4 * i + 2]),
        w: count_in(s.ssx, column, rectangles[4 * i + 3]),
    }
}

// Marks the plane's cells that a list of rectangles keeps; those that lie in none stay as they were, and a rectangle that is refused marks none.
pub fn keep_cells(keep: &mut [u8], rectangles: &[u16], s: Cells)
    ensures { keep.new ≡ kept_by s rectangles.now keep.old }
{
    let n = rectangles.len() / 4;
    for i in 0..n {
        let _ = keep_rectangle(keep, rectangle_at(rectangles, i, s));
    }
}

// Marks those that the settings keep.
pub fn keep_asked(keep: &mut [u8], shorts: &[u16], places: &[usize], s: Cells)
    requires { (kinds ≤ length places.now) × (fewest_shorts ≤ length shorts.now) }
    ensures { keep.new ≡ kept_asked s shorts.now places.now keep.old }
{
    let at = lists_of(places, shorts.len());
    let a = at.keeps;
    let b = at.keepsend;
    keep_cells(keep, &shorts[a..b], s);
}
