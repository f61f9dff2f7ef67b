// Rows of a plane from one file and to another.
ghost use Rattle.std.specs.Prelude.{◌≡◌, ◌*◌, ◌≤◌};
ghost use Rattle.pictures.specs.Shapes.{ShapeFits};

use pictures::planes::{Cut, Shape, cut_after, put_row, read_row, row_bytes, write_row};
use std::io;
use system::files::{Source, Target};

// The files that a plane's rows come from and go to, its shape, and whether a sample has two bytes.
#[derive(Clone, Copy)]
pub struct Way<'a> {
    pub from: &'a Source,
    pub to: &'a Target,
    pub shape: Shape,
    pub wide: bool,
}

// Where a row begins in its plane.
fn row_at(s: Shape, r: usize) -> usize
    requires { ShapeFits s × (r ≤ 4096) }
    ensures { (result ≡ s.stride * r) × (result ≤ 16777216) }
{
    s.stride * r
}

// Reads the rows from one up to another; those past the picture's last one repeat what the buffer has. An error says how many bytes the plane has so far where the file ends.
pub fn read_rows(
    bytes: &mut [u8; 8192],
    plane: &mut [u16],
    way: Way<'_>,
    first: usize,
    end: usize,
) -> Result<(), Cut>
    requires { ShapeFits way.shape × (end ≤ 4096) }
{
    let s = way.shape;
    let n = row_bytes(s.width, way.wide);
    for r in first..end {
        let k = read_row(way.from, bytes, n, r < s.height);
        if k < n {
            return Err(cut_after(r, n, k));
        }
        if !put_row(bytes, plane, row_at(s, r), s, way.wide) {
            return Err(cut_after(r, n, 0));
        }
    }
    Ok(())
}

// Writes the picture's rows from one up to another; an error where one can't be written.
pub fn write_rows(plane: &[u16], way: Way<'_>, first: usize, end: usize) -> io::Result<()>
    requires { ShapeFits way.shape }
{
    let s = way.shape;
    let mut bytes = [0u8; 8192];
    let n = row_bytes(s.width, way.wide);
    for r in first..end.min(s.height) {
        let at = row_at(s, r);
        let Some(row) = plane.get(at..at + s.width) else {
            return Err(io::Error::from(io::ErrorKind::UnexpectedEof));
        };
        write_row(way.to, row, &mut bytes, n, way.wide)?;
    }
    Ok(())
}
