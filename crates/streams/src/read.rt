// A frame of the file: its line, and its planes.
ghost use Rattle.std.specs.Prelude.{◌≤◌, length, IfOk, IfSome};
ghost use Rattle.pictures.specs.Shapes.{ShapeFits};
ghost use Rattle.streams.specs.Shaped.{Shaped};

use crate::job::Job;
use crate::planes::Planes;
use crate::say::{Answered, cut, no_frame};
use pictures::files::{NoLine, read_line};
use pictures::planes::{Shape, area, read_plane, row_bytes};
use system::files::Source;
use y4m::header::is_frame;

// The length of the line before frame k, and none after the last frame; the first must be there. An error after the answer that says why.
pub fn next_mark(j: Job<'_>, k: usize, mark: &mut [u8]) -> Result<Option<usize>, Answered>
    ensures { IfOk result (λ m. IfSome m (λ n. n ≤ length mark.new)) }
{
    match read_line(j.from, mark) {
        Err(NoLine::Ended) if 0 < k => Ok(None),
        Ok(n) if is_frame(mark, n) => Ok(Some(n)),
        _ => Err(no_frame(j.told, j.name, k)),
    }
}

// Samples of a frame in bytes: what it has, and what it needs.
#[derive(Clone, Copy)]
struct Sum {
    has: usize,
    needs: usize,
}

impl Sum {
    // One more plane, where those before are whole.
    fn read(self, from: &Source, plane: &mut [u16], s: Shape, wide: bool) -> Sum
        requires { ShapeFits s }
    {
        let whole = area(row_bytes(s.width, wide), s.height);
        let needs = self.needs.wrapping_add(whole);
        if self.has != self.needs {
            return Sum { needs, ..self };
        }
        let more = match read_plane(from, plane, s, wide) {
            Ok(()) => whole,
            Err(cut) => cut.bytes,
        };
        Sum {
            has: self.has.wrapping_add(more),
            needs,
        }
    }

    // Whether frame k has all that it needs; else an error after the answer that says what is missing.
    fn all_of(self, j: Job<'_>, k: usize) -> Result<(), Answered> {
        if self.has == self.needs {
            return Ok(());
        }
        Err(cut(j.told, j.name, k, self.has, self.needs))
    }
}

// The planes of frame k; an error after the answer that says what is missing.
pub fn read_frame(j: Job<'_>, k: usize, frame: &mut Planes<'_>) -> Result<(), Answered>
    requires { Shaped j }
{
    let h = j.h;
    let layout = h.layout;
    let wide = 8 < layout.depth;
    let none = Sum { has: 0, needs: 0 };
    let luma = none.read(j.from, frame.y, j.l, wide);
    if !layout.chroma {
        return luma.all_of(j, k);
    }
    let first = luma.read(j.from, frame.u, j.c, wide);
    first.read(j.from, frame.v, j.c, wide).all_of(j, k)
}
