// The cells of luma's plane and of chroma's that the settings keep, as marks.
ghost use Rattle.std.specs.Prelude.{◌≡◌, ◌≤◌, length};
ghost use Rattle.streams.specs.Kept.{cells_of, Marked};

use by_settings::kept::{Cells, keep_asked};
use pictures::planes::Shape;
use y4m::header::Header;

// The cells of a plane by its shape and its subsampling.
pub fn cells_of(s: Shape, ssx: usize, ssy: usize) -> Cells
    ensures { result ≡ cells_of s ssx ssy }
{
    Cells {
        cols: s.stride / 4,
        rows: s.rows / 4,
        ssx,
        ssy,
    }
}

// Marks what the settings' short numbers keep of luma and of chroma, whose shapes are l and c.
pub fn mark(
    keep: &mut [u8],
    chromakeep: &mut [u8],
    shorts: &[u16],
    places: &[usize],
    h: Header,
    l: Shape,
    c: Shape,
)
    requires { (24 ≤ length places.now) × (22526 ≤ length shorts.now) }
    ensures { Marked h l c shorts.now places.now keep.old chromakeep.old keep.new chromakeep.new }
{
    let layout = h.layout;
    keep_asked(keep, shorts, places, cells_of(l, 0, 0));
    keep_asked(
        chromakeep,
        shorts,
        places,
        cells_of(c, layout.ssx, layout.ssy),
    );
}
