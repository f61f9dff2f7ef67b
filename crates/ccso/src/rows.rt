// The target, row by row and in each row block by block.
ghost use Rattle.std.specs.Prelude.{◌≡◌, ◌+◌, ◌*◌, ◌≤◌, ◌<◌, length, get_or};
ghost use Rattle.laws.specs.Loops.{turns};
ghost use Rattle.rules.specs.Frame.{superblocks};
ghost use Rattle.rules.specs.Ccso.{target_width, target_height, ccso_cell, ccso_row, ccso_of};
ghost use Rattle.ccso_sample.specs.Ranges.{Ranges, Raised, Sized};
ghost use Rattle.ccso_sample.specs.Lists.{RowOf, Lit, Small};
ghost use Rattle.ccso.specs.Lists.{CcsoFits, moved_cell, block_row};

use ccso_sample::counts::{Counts, Sizes, counts_of, sizes_of};
use ccso_sample::sample::sample_at;
use ccso_sample::taps::{Row, limited};
use rules::settings::Ccso;

// Row y of the target.
fn row_of(s: Ccso, k: Counts, z: Sizes, y: usize) -> Row
    requires raised { Raised s k }
    requires sized { Sized s z }
    requires y_bound { y < target_height s }
    ensures { RowOf s result × (result.y ≡ y) }
{
    let width = s.width;
    let at = y * k.down;
    let row0 = limited(at, k.dy0, s.height);
    let row1 = limited(at, k.dy1, s.height);
    Row {
        y: y,
        at: y * z.width,
        centre: at * width,
        tap0: row0 * width,
        tap1: row1 * width,
        flags: y / z.blockh * z.blocks,
    }
}

// The sample at column x of a row, in a block whose flag is on.
fn cell(luma: &[u16], target: &mut [u16], offsets: &[i8], s: Ccso, k: Counts, r: Row, x: usize)
    requires raised { Raised s k }
    requires row_of { RowOf s r }
    requires lit { Lit s luma.now × Small s offsets.now × (target_height s * target_width s ≤ length target.old) }
    requires x_bound { x < target_width s }
    ensures { target.new ≡ moved_cell s luma.now offsets.now r.y x target.old }
{
    let i = r.at + x;
    let v = target[i];
    target[i] = sample_at(luma, offsets, s, k, r, x, v);
}

// count columns of a row from start, of a block whose flag is on.
fn cells(
    luma: &[u16],
    target: &mut [u16],
    offsets: &[i8],
    s: Ccso,
    k: Counts,
    r: Row,
    start: usize,
    count: usize,
)
    requires raised { Raised s k }
    requires row_of { RowOf s r }
    requires lit { Lit s luma.now × Small s offsets.now × (target_height s * target_width s ≤ length target.old) }
    requires count_bound { start + count ≤ target_width s }
    ensures { target.new ≡ turns count (λ j. moved_cell s luma.now offsets.now r.y (start + j)) target.old }
{
    for j in 0..count {
        cell(luma, target, offsets, s, k, r, start + j);
    }
}

// Block b of a row: kept where its flag is 0.
fn block(
    luma: &[u16],
    target: &mut [u16],
    flags: &[u8],
    offsets: &[i8],
    s: Ccso,
    k: Counts,
    z: Sizes,
    r: Row,
    b: usize,
)
    requires raised { Raised s k }
    requires sized { Sized s z }
    requires row_of { RowOf s r }
    requires ccso_fits { CcsoFits s luma.now offsets.now (length target.old) (length flags.now) }
    requires b_bound { b < superblocks s.width }
    ensures { target.new ≡ block_row s luma.now flags.now offsets.now r.y b target.old }
{
    let at = r.flags + b;
    let flag = flags[at];
    if flag == 0 {
        return;
    }
    let start = b * z.blockw;
    let end = (start + z.blockw).min(z.width);
    cells(luma, target, offsets, s, k, r, start, end - start);
}

// Row y of the target.
fn row(
    luma: &[u16],
    target: &mut [u16],
    flags: &[u8],
    offsets: &[i8],
    s: Ccso,
    k: Counts,
    z: Sizes,
    y: usize,
)
    requires raised { Raised s k }
    requires sized { Sized s z }
    requires ccso_fits { CcsoFits s luma.now offsets.now (length target.old) (length flags.now) }
    requires y_bound { y < target_height s }
    ensures { target.new ≡ ccso_row s luma.now flags.now offsets.now y target.old }
{
    let r = row_of(s, k, z, y);
    let blocks = z.blocks;
    for b in 0..blocks {
        block(luma, target, flags, offsets, s, k, z, r, b);
    }
}

// Every row of the target.
pub fn run(luma: &[u16], target: &mut [u16], flags: &[u8], offsets: &[i8], s: Ccso)
    requires ranges { Ranges s }
    requires ccso_fits { CcsoFits s luma.now offsets.now (length target.old) (length flags.now) }
    ensures { target.new ≡ ccso_of s luma.now flags.now offsets.now target.old }
{
    let k = counts_of(s);
    let z = sizes_of(s);
    let rows = z.height;
    for y in 0..rows {
        row(luma, target, flags, offsets, s, k, z, y);
    }
}
