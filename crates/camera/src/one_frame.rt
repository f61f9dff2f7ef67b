// One frame: its line, and then its planes, one after the other in one list.
ghost use Rattle.std.specs.Prelude.{◌≤◌};
ghost use Rattle.frame_checks.specs.Settings.{Sized};
ghost use Rattle.streams.specs.Shaped.{Shaped};
ghost use Rattle.pictures.specs.Shapes.{ShapeFits};

use crate::asked::Asked;
use arriving::carry::Way;
use arriving::passed::Stop;
use arriving::planes::pass_plane;
use by_settings::places::at;
use pictures::planes::{area, row_bytes};
use refused::say::refused;
use rules::counts::Counts;
use rules::refusals::place;
use rules::settings::Frame;
use streams::counts::{both, none};
use streams::job::Job;
use streams::read::next_mark;
use streams::save::write_mark;
use streams::say::{Answered, cut, unwritten};

// The way of luma's rows, or of chroma's.
fn way_of<'a>(j: Job<'a>, chroma: bool) -> Way<'a>
    requires { Shaped j }
    ensures { ShapeFits result.shape }
{
    let h = j.h;
    let layout = h.layout;
    let wide = 8 < layout.depth;
    Way {
        from: j.from,
        to: j.to,
        shape: if chroma { j.c } else { j.l },
        wide,
    }
}

// How many bytes a plane has.
fn bytes_of(way: Way<'_>) -> usize
    requires { ShapeFits way.shape }
    ensures { result ≤ 33554432 }
{
    let s = way.shape;
    area(row_bytes(s.width, way.wide), s.height)
}

// How many planes a frame has.
fn planes_of(j: Job<'_>) -> usize {
    let h = j.h;
    let layout = h.layout;
    if layout.chroma { 3 } else { 1 }
}

// How many bytes the planes before plane p have.
fn bytes_before(j: Job<'_>, p: usize) -> usize
    requires { Shaped j }
{
    if p == 0 {
        return 0;
    }
    let luma = bytes_of(way_of(j, false));
    let chroma = bytes_of(way_of(j, true));
    if p == 1 {
        return luma;
    }
    if p == 2 {
        return luma + chroma;
    }
    luma + 2 * chroma
}

// The answer on plane p of frame k, which stopped so.
fn stopped(stop: Stop, j: Job<'_>, k: usize, p: usize) -> Answered
    requires { Shaped j }
{
    let way = way_of(j, 0 < p);
    let s = way.shape;
    match stop {
        Stop::Cut(n) => {
            let has = bytes_before(j, p).wrapping_add(n);
            cut(j.told, j.name, k, has, bytes_before(j, planes_of(j)))
        }
        Stop::Refused(r) => {
            refused(j.told, r, at(p, place(r), s.stride), None);
            Answered
        }
        Stop::Unwritten => unwritten(j.told),
    }
}

// The planes of frame k, and what deblocking stored and changed of them; an error after the answer on the first that does not pass.
fn pass(plane: &mut [u16], s: Asked<'_>, f: Frame, j: Job<'_>, k: usize) -> Result<Counts, Answered>
    requires { Sized f × Shaped j }
{
    let mut counts = none();
    for p in 0..planes_of(j) {
        match pass_plane(
            plane,
            s.shorts,
            s.steps,
            s.places,
            f,
            0 < p,
            way_of(j, 0 < p),
        ) {
            Ok(more) => counts = both(counts, more),
            Err(stop) => return Err(stopped(stop, j, k, p)),
        }
    }
    Ok(counts)
}

// Frame k of the stream, where there is one; the first must be there. An error after the answer that says why not.
pub fn next(
    plane: &mut [u16],
    s: Asked<'_>,
    f: Frame,
    j: Job<'_>,
    k: usize,
) -> Result<Option<Counts>, Answered>
    requires { Sized f × Shaped j }
{
    let mut mark = [0u8; 1024];
    let Some(n) = next_mark(j, k, &mut mark)? else {
        return Ok(None);
    };
    write_mark(&mark[..n], j, k).map_err(|_| unwritten(j.told))?;
    Ok(Some(pass(plane, s, f, j, k)?))
}
