// A frame without its padding, and to the file.
ghost use Rattle.streams.specs.Shaped.{Shaped};

use crate::job::Job;
use crate::planes::Planes;
use crate::say::{Answered, unwritten};
use pictures::planes;
use std::io;
use system::files::{Target, write_all};

// Takes the padding out of the planes.
pub fn pack(frame: &mut Planes<'_>, j: Job<'_>)
    requires { Shaped j }
{
    planes::pack(frame.y, j.l);
    planes::pack(frame.u, j.c);
    planes::pack(frame.v, j.c);
}

// A line and its newline to a file.
pub fn write_line(to: &Target, line: &[u8]) -> io::Result<()> {
    write_all(to, line)?;
    write_all(to, b"\n")
}

// The planes to the file.
fn write_planes(frame: &Planes<'_>, j: Job<'_>) -> io::Result<()>
    requires { Shaped j }
{
    let h = j.h;
    let layout = h.layout;
    let wide = 8 < layout.depth;
    planes::write_plane(j.to, &*frame.y, j.l, wide)?;
    if layout.chroma {
        planes::write_plane(j.to, &*frame.u, j.c, wide)?;
        planes::write_plane(j.to, &*frame.v, j.c, wide)?;
    }
    Ok(())
}

// The line of frame k; the first one has the header's before it.
pub fn write_mark(mark: &[u8], j: Job<'_>, k: usize) -> io::Result<()> {
    if k == 0 {
        write_line(j.to, j.head)?;
    }
    write_line(j.to, mark)
}

// The line and the planes of frame k.
fn write_frame(frame: &Planes<'_>, mark: &[u8], j: Job<'_>, k: usize) -> io::Result<()>
    requires { Shaped j }
{
    write_mark(mark, j, k)?;
    write_planes(frame, j)
}

// Writes frame k; an error after the answer that it could not.
pub fn save(frame: &Planes<'_>, mark: &[u8], j: Job<'_>, k: usize) -> Result<(), Answered>
    requires { Shaped j }
{
    write_frame(frame, mark, j, k).map_err(|_| unwritten(j.told))
}
