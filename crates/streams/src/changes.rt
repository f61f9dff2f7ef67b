// A frame as it was, its planes one after the other in one list, and how many of its samples changed.
ghost use Rattle.std.specs.Prelude.{◌≤◌, length};
ghost use Rattle.pictures.specs.Shapes.{ShapeFits};
ghost use Rattle.streams.specs.Shaped.{Shaped};

use crate::job::Job;
use crate::planes::Planes;
use pictures::planes::{Shape, area, copy, differing, pack};

// Room for the planes of a frame of 512 by 512 at most.
pub fn small_room() -> [u16; 786432] {
    [0; 786432]
}

// Room for those of the largest.
pub fn large_room() -> [u16; 50331648] {
    [0; 50331648]
}

// Where a plane without its padding ends in a list of n samples that has it from a place on.
fn end_of(from: usize, s: Shape, n: usize) -> usize
    requires { ShapeFits s × (from ≤ n) }
    ensures { result ≤ n }
{
    from + area(s.width, s.height).min(n - from)
}

// A plane as it is, without its padding.
fn keep_plane(plane: &[u16], was: &mut [u16], s: Shape)
    requires { ShapeFits s }
{
    copy(plane, was);
    pack(was, s);
}

// The planes as they are, without their padding.
pub fn keep(frame: &Planes<'_>, was: &mut [u16], j: Job<'_>)
    requires { Shaped j }
{
    let a = end_of(0, j.l, was.len());
    let b = end_of(a, j.c, was.len());
    keep_plane(&*frame.y, was, j.l);
    keep_plane(&*frame.u, &mut was[a..], j.c);
    keep_plane(&*frame.v, &mut was[b..], j.c);
}

// How many samples of a plane are not as they were.
fn changed_in(plane: &[u16], was: &[u16], s: Shape) -> usize
    requires { ShapeFits s }
{
    differing(plane, was, area(s.width, s.height))
}

// How many samples of a frame are not as they were.
pub fn changed(frame: &Planes<'_>, was: &[u16], j: Job<'_>) -> usize
    requires { Shaped j }
{
    let h = j.h;
    let layout = h.layout;
    let a = end_of(0, j.l, was.len());
    let b = end_of(a, j.c, was.len());
    let n = changed_in(&*frame.y, was, j.l);
    if !layout.chroma {
        return n;
    }
    let u = changed_in(&*frame.u, &was[a..], j.c);
    let v = changed_in(&*frame.v, &was[b..], j.c);
    n.wrapping_add(u).wrapping_add(v)
}
