// A rectangle of cells, cut to the plane: the marks of its cells, row by row.
ghost use Rattle.std.specs.Prelude.{◌≡◌, ◌+◌, ◌≤◌, length};
ghost use Rattle.rules.specs.Keep.{kept_of};
ghost use Rattle.rectangle.specs.Cut.{RectangleFits, part_of, row_set};

use rules::settings::Keep;

// How many of count rows or columns from first on lie in a plane of n: no sum, since first and count may be any numbers.
fn part(first: usize, count: usize, n: usize) -> usize
    ensures { result ≡ part_of first count n }
{
    if n <= first {
        return 0;
    }
    count.min(n - first)
}

// 1 at n places from a place on.
fn set_row(keep: &mut [u8], at: usize, n: usize)
    requires { at + n ≤ length keep.old }
    ensures { keep.new ≡ row_set at n keep.old }
{
    for j in 0..n {
        keep[at + j] = 1;
    }
}

// 1 at every cell of the plane that lies in the rectangle.
pub fn set_rectangle(keep: &mut [u8], s: Keep)
    requires { RectangleFits s (length keep.old) }
    ensures { keep.new ≡ kept_of s keep.old }
{
    let wide = part(s.col, s.w, s.cols);
    if wide == 0 {
        return;
    }
    let high = part(s.row, s.h, s.rows);
    for i in 0..high {
        set_row(keep, (s.row + i) * s.cols + s.col, wide);
    }
}
