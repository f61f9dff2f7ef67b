// What the settings do not say: numbers, a qindex for every superblock, a leaf for every superblock.
ghost use Rattle.std.specs.Prelude.{◌≡◌, ◌+◌, ◌≤◌, length};
ghost use Rattle.pictures.specs.Storing.{stored};
ghost use Rattle.pictures.specs.Defaults.{default_numbers, last_repeated, leaf, leaf_row, tiled, tiled_end, complete_shorts, complete_places};

use rounding::superblocks;

// Deltas 0, caps of 16 cells, chroma deblocked.
pub fn numbers() -> [i32; 64]
    ensures { result ≡ default_numbers }
{
    let mut t = [0i32; 64];
    t[3] = 16;
    t[4] = 16;
    t[5] = 16;
    t[6] = 16;
    t[7] = 1;
    t
}

// The short numbers of a text below 64 KiB: 4096 qindex entries, 8192 leaves of each sort, each of which takes 13 bytes, 1023 tile starts of luma and of chroma, and
// 4096 kept rectangles.
pub fn few_shorts() -> [u16; 120830] {
    [0; 120830]
}

// Those of any text: 4096 qindex entries, 1048576 leaves of each sort, 1023 tile starts of luma and of chroma, and 4096 kept rectangles.
pub fn shorts() -> [u16; 12605438] {
    [0; 12605438]
}

// The last qindex of n serves the superblocks after it.
fn repeat_last(shorts: &mut [u16], n: usize)
    requires { 4096 ≤ length shorts.old }
    ensures { shorts.new ≡ last_repeated n shorts.old }
{
    if n == 0 || 4096 <= n {
        return;
    }
    let last = shorts[n - 1];
    shorts[n..4096].fill(last);
}

// One leaf of 16 by 16 cells.
fn put_leaf(shorts: &mut [u16], at: usize, row: u16, column: u16)
    requires { at + 4 ≤ length shorts.old }
    ensures { shorts.new ≡ stored shorts.old at (leaf row column) }
{
    shorts[at..at + 4].copy_from_slice(&[row, column, 16, 16]);
}

// A row of superblocks.
fn leaf_row(shorts: &mut [u16], at: usize, row: u16, across: usize)
    requires { (across ≤ 64) × (at + 256 ≤ length shorts.old) }
    ensures { shorts.new ≡ stored shorts.old at (leaf_row row across) }
{
    for c in 0..across {
        put_leaf(shorts, at + 4 * c, row, (16 * c) as u16);
    }
}

// A leaf for every superblock; answers the place after the last.
fn tile(shorts: &mut [u16], across: usize, down: usize) -> usize
    requires { (across ≤ 64) × (down ≤ 64) × (24576 ≤ length shorts.old) }
    ensures { (shorts.new ≡ tiled across down shorts.old) × (result ≡ tiled_end across down) }
{
    let mut at: usize = 4096;
    for r in 0..down {
        leaf_row(shorts, at, (16 * r) as u16, across);
        at += 4 * across;
    }
    at
}

// What the picture's size decides.
pub fn complete(shorts: &mut [u16], places: &mut [usize; 24], width: usize, height: usize)
    requires { (width ≤ 4096) × (height ≤ 4096) × (24576 ≤ length shorts.old) }
    ensures shorts_after { shorts.new ≡ complete_shorts width height places.old shorts.old }
    ensures places_after { places.new ≡ complete_places width height places.old }
{
    repeat_last(shorts, places[2]);
    if places[4] == 4096 {
        places[4] = tile(shorts, superblocks(width), superblocks(height));
    }
}
