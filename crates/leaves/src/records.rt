// Lent lists of leaf records: each is taken apart, and its four numbers go to the function of one leaf.
ghost use Rattle.std.specs.Prelude.{◌≡◌, length};
ghost use Rattle.rules.specs.TuGrid.{marks, leaves_of};
ghost use Rattle.tiles.specs.Fit.{Cut, AllGood};
ghost use Rattle.grid.specs.Fit.{GridFits};
ghost use Rattle.leaves.specs.Records.{flat, good_of};

use grid::paint::paint_leaf;
use rules::settings::TuGrid;
use tiles::leaf::leaf_good;

// A leaf: its first row and column and its size, in luma cells; bit 4096 as in a list of numbers. C's `struct bihargesh_leaf`.
#[repr(C)]
#[derive(Clone, Copy)]
pub struct Leaf {
    pub row: u16,
    pub col: u16,
    pub w: u16,
    pub h: u16,
}

// How many leaves stand before the first bad one: all, where none is bad.
pub fn good_leaves(ls: &[Leaf], skip: bool) -> usize
    ensures { result ≡ good_of skip ls.now }
{
    for (i, leaf) in ls.iter().enumerate() {
        if !leaf_good(skip, leaf.row, leaf.col, leaf.w, leaf.h) {
            return i;
        }
    }
    ls.len()
}

// The leaves of a list, later ones over earlier ones.
pub fn paint_leaves(
    vedge: &mut [u8],
    hedge: &mut [u8],
    sqw: &mut [u8],
    sqh: &mut [u8],
    ls: &[Leaf],
    s: TuGrid,
    skip: bool,
)
    requires { GridFits s (length vedge.old) (length hedge.old) (length sqw.old) (length sqh.old) × Cut s × AllGood (flat ls.now) }
    ensures { marks vedge.new hedge.new sqw.new sqh.new ≡ leaves_of s skip (flat ls.now) (marks vedge.old hedge.old sqw.old sqh.old) }
{
    for leaf in ls {
        paint_leaf(
            vedge, hedge, sqw, sqh, s, skip, leaf.row, leaf.col, leaf.w, leaf.h,
        );
    }
}
