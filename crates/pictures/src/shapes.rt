// The shapes of a picture's planes by its header, whose sizes are taken as 1 to 4096 and whose subsampling as 0 or 1.
ghost use Rattle.std.specs.Prelude.{◌≤◌};
ghost use Rattle.pictures.specs.Shapes.{ShapeFits};

use crate::planes::{Shape, shape_of};
use y4m::header::Header;

// A size from 1 to 4096.
fn side(n: usize) -> usize
    ensures { (1 ≤ result) × (result ≤ 4096) }
{
    n.clamp(1, 4096)
}

// Luma's shape.
pub fn luma_of(h: Header) -> Shape
    ensures { ShapeFits result }
{
    shape_of(side(h.width), side(h.height), 0, 0)
}

// Chroma's shape.
pub fn chroma_of(h: Header) -> Shape
    ensures { ShapeFits result }
{
    let layout = h.layout;
    shape_of(
        side(h.width),
        side(h.height),
        layout.ssx.min(1),
        layout.ssy.min(1),
    )
}
