// A picture's planes: read into rows with padding, packed, and written.
ghost use Rattle.std.specs.Prelude.{◌≡◌, ◌+◌, ◌*◌, ◌≤◌, min, leb, length, OnOk, ◌==◌, not, filter, take, zip};
ghost use Rattle.pictures.specs.Storing.{stored};
ghost use Rattle.pictures.specs.Shapes.{ShapeFits, shape_of};
ghost use Rattle.pictures.specs.Changes.{differing_of};
ghost use Rattle.pictures.specs.Rows.{row_bytes, NextRow, row_put, FilePlane, packed, row_out};

use rounding::{halved, up_to_eight};
use std::io;
use system::files::{Source, Target, read_full, write_all};
use y4m::samples::{to_bytes, to_samples};

// A plane's size, and the same rounded up to 8.
#[derive(Clone, Copy)]
pub struct Shape {
    pub width: usize,
    pub height: usize,
    pub stride: usize,
    pub rows: usize,
}

// The shape of a plane of a picture, by its subsampling.
pub fn shape_of(width: usize, height: usize, ssx: usize, ssy: usize) -> Shape
    requires { (1 ≤ width) × (width ≤ 4096) × (1 ≤ height) × (height ≤ 4096) × (ssx ≤ 1) × (ssy ≤ 1) }
    ensures shape_fits { ShapeFits result }
    ensures value { result ≡ shape_of width height ssx ssy }
{
    let w = halved(ssx, width);
    let h = halved(ssy, height);
    Shape {
        width: w,
        height: h,
        stride: up_to_eight(w),
        rows: up_to_eight(h),
    }
}

// So many bytes or samples across, and so many rows.
pub fn area(across: usize, down: usize) -> usize
    requires { (across ≤ 8192) × (down ≤ 4096) }
    ensures { (result ≡ across * down) × (result ≤ 33554432) }
{
    across * down
}

// Samples of a plane of 512 by 512 at most.
pub fn small_room() -> [u16; 262144] {
    [0; 262144]
}

// Samples of the largest plane.
pub fn large_room() -> [u16; 16777216] {
    [0; 16777216]
}

// A plane that its file does not have whole: how many bytes there were.
#[derive(Clone, Copy, Debug, PartialEq, Eq)]
pub struct Cut {
    pub bytes: usize,
}

// How many bytes a row has.
pub fn row_bytes(width: usize, wide: bool) -> usize
    requires { width ≤ 4096 }
    ensures upper_bound { result ≤ 8192 }
    ensures value { result ≡ row_bytes width wide }
{
    if wide { 2 * width } else { width }
}

// The next row's bytes to the front of the buffer, where the plane has another row; how many of them there are.
pub fn read_row(from: &Source, bytes: &mut [u8], n: usize, more: bool) -> usize
    requires { n ≤ length bytes.old }
    ensures { NextRow more n bytes.old bytes.new result }
{
    if !more {
        return n;
    }
    read_full(from, &mut bytes[..n])
}

// One row of a plane from the buffer; false where the plane has no such row. A flag alone: nothing failed and nothing comes with it.
pub fn put_row(bytes: &[u8], plane: &mut [u16], at: usize, s: Shape, wide: bool) -> bool
    requires { ShapeFits s × (at ≤ 16777216) }
    ensures value { result ≡ leb (at + s.stride) (length plane.old) }
    ensures plane_after { plane.new ≡ row_put wide s bytes.now at plane.old }
{
    let end = at + s.stride;
    if plane.len() < end {
        return false;
    }
    to_samples(bytes, &mut plane[at..end], s.width, wide);
    true
}

// Some rows of n bytes, and some bytes of another one.
pub fn cut_after(rows: usize, n: usize, bytes: usize) -> Cut
    requires { (rows ≤ 4096) × (n ≤ 8192) × (bytes ≤ 8192) }
{
    Cut {
        bytes: area(n, rows) + bytes,
    }
}

// A plane from a file; rows past the last one repeat it. Promised is how bytes make the plane, not which the file has.
pub fn read_plane(from: &Source, plane: &mut [u16], s: Shape, wide: bool) -> Result<(), Cut>
    requires { ShapeFits s }
    ensures { OnOk result (FilePlane wide s plane.old plane.new) }
{
    let mut bytes = [0u8; 8192];
    let n = row_bytes(s.width, wide);
    let mut at: usize = 0;
    for r in 0..s.rows {
        let k = read_row(from, &mut bytes, n, r < s.height);
        if k < n {
            return Err(cut_after(r, n, k));
        }
        if !put_row(&bytes, plane, at, s, wide) {
            return Err(cut_after(r, n, 0));
        }
        at += s.stride;
    }
    Ok(())
}

// Takes the padding out of a plane: its rows then follow each other.
pub fn pack(plane: &mut [u16], s: Shape)
    requires { ShapeFits s }
    ensures { plane.new ≡ packed s plane.old }
{
    let mut from: usize = 0;
    let mut to: usize = 0;
    for _r in 0..s.height {
        if plane.len() < from + s.width {
            return;
        }
        plane.copy_within(from..from + s.width, to);
        from += s.stride;
        to += s.width;
    }
}

// One row of a packed plane to a file; promised are the bytes that are handed on.
pub fn write_row(to: &Target, row: &[u16], bytes: &mut [u8], n: usize, wide: bool) -> io::Result<()>
    requires { n ≤ length bytes.old }
    ensures { bytes.new ≡ row_out wide row.now n bytes.old }
{
    to_bytes(row, &mut bytes[..n], wide);
    write_all(to, &bytes[..n])
}

// A packed plane to a file; an error where a row can't be written. Promised is that a plane that was written whole was there whole.
pub fn write_plane(to: &Target, plane: &[u16], s: Shape, wide: bool) -> io::Result<()>
    requires { ShapeFits s }
    ensures { OnOk result (s.width * s.height ≤ length plane.now) }
{
    let mut bytes = [0u8; 8192];
    let n = row_bytes(s.width, wide);
    let whole = area(s.width, s.height);
    let there = whole.min(plane.len());
    for row in plane[..there].chunks_exact(s.width) {
        write_row(to, row, &mut bytes, n, wide)?;
    }
    if there < whole {
        return Err(io::Error::from(io::ErrorKind::UnexpectedEof));
    }
    Ok(())
}

// Copies as much as both planes hold.
pub fn copy(from: &[u16], to: &mut [u16])
    ensures { to.new ≡ stored to.old 0 from.now }
{
    let n = from.len().min(to.len());
    to[..n].copy_from_slice(&from[..n]);
}

// Of the first n pairs of samples those that differ, as the chain says it.
fn pairs_differing(a: &[u16], b: &[u16], n: usize) -> usize
    ensures { result ≡ length (filter (λ p. not (p.0 == p.1)) (take n (zip a.now b.now))) }
{
    a.iter().zip(b).take(n).filter(|(x, y)| x != y).count()
}

// How many of the first n samples of two planes differ.
pub fn differing(a: &[u16], b: &[u16], n: usize) -> usize
    ensures { result ≡ differing_of a.now b.now (min n (min (length a.now) (length b.now))) }
{
    pairs_differing(a, b, n)
}
