// Where a refusal stands: a plane or list by its number, and a row and a column.
ghost use Rattle.std.specs.Prelude.{◌≡◌};
ghost use Rattle.by_settings.specs.Places.{place_in, over_top, sample_place, leaf_place, leaves_place};

use rules::depth::Depth;
use rules::settings::Frame;
use tiles::leaf::{bad_leaf, wide};

// The planes and lists by number: the planes, both planes of chroma, the lists of leaves, the step table, the frame.
pub const LUMA: usize = 0;

pub const U: usize = 1;

pub const V: usize = 2;

pub const CHROMA: usize = 3;

pub const LEAVES: usize = 4;

pub const CHROMA_LEAVES: usize = 5;

pub const SKIPS: usize = 6;

pub const STEPS: usize = 7;

pub const FRAME: usize = 8;

// A plane or list, and a row and a column there.
#[derive(Clone, Copy)]
pub struct Place {
    pub plane: usize,
    pub row: usize,
    pub column: usize,
}

// Number k of a plane by its row and column.
pub fn at(plane: usize, k: usize, across: usize) -> Place
    ensures { result ≡ place_in plane k across }
{
    if across == 0 {
        return Place {
            plane,
            row: 0,
            column: k,
        };
    }
    Place {
        plane,
        row: k / across,
        column: k % across,
    }
}

// Whether sample k of a plane is above its depth's top.
fn over(plane: &[u16], k: usize, depth: u32) -> bool
    ensures { result ≡ over_top depth plane.now k }
{
    if !Depth::is(depth) {
        return false;
    }
    if plane.len() <= k {
        return false;
    }
    let d = Depth { bits: depth };
    d.top() < plane[k]
}

// Where a sample was refused: the first plane, in the order of the checks, whose sample at that offset is bad.
pub fn sample_place(y: &[u16], u: &[u16], k: usize, f: Frame) -> Place
    ensures { result ≡ sample_place f y.now u.now k }
{
    if over(y, k, f.depth) {
        return at(LUMA, k, f.lumastride);
    }
    if over(u, k, f.depth) {
        return at(U, k, f.chromastride);
    }
    at(V, k, f.chromastride)
}

// Leaf k of a list by its row and column.
fn leaf_place(plane: usize, leaves: &[u16], k: usize) -> Place
    ensures { result ≡ leaf_place plane leaves.now k }
{
    if leaves.len() / 4 <= k {
        return at(plane, k, 0);
    }
    let first = k * 4;
    Place {
        plane,
        row: wide(leaves[first]),
        column: wide(leaves[first + 1]),
    }
}

// Where a leaf was refused: luma's, chroma's, then the skip leaves.
pub fn leaves_place(leaves: &[u16], chromaleaves: &[u16], skips: &[u16], k: usize) -> Place
    ensures { result ≡ leaves_place leaves.now chromaleaves.now skips.now k }
{
    let a = bad_leaf(leaves, false);
    if let Some(_) = a {
        return leaf_place(LEAVES, leaves, k);
    }
    let b = bad_leaf(chromaleaves, false);
    if let Some(_) = b {
        return leaf_place(CHROMA_LEAVES, chromaleaves, k);
    }
    leaf_place(SKIPS, skips, k)
}
