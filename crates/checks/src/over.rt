// The first sample over top, row by row: a row's largest first, since a sample is seldom too large, and the place only where it is.
ghost use Rattle.std.specs.Prelude.{◌≡◌, ◌+◌, ◌≤◌, length};
ghost use Rattle.laws.specs.Largest.{largest};
ghost use Rattle.rules.specs.Refusals.{over_row, over_box};
ghost use Rattle.checks.specs.Rows.{Box};

// The largest of count samples from start.
fn most(plane: &[u16], start: usize, count: usize) -> u16
    requires { start + count ≤ length plane.now }
    ensures { result ≡ largest plane.now start count }
{
    // A loop and no iter().max(): `largest` goes from the first place up and is 0 of none, as the loop.
    let mut m: u16 = 0;
    for x in 0..count {
        m = m.max(plane[start + x]);
    }
    m
}

// The first of count samples from start that is over top; by index, since the place is what is found.
fn exact(plane: &[u16], start: usize, count: usize, top: u16) -> Option<usize>
    requires { start + count ≤ length plane.now }
    ensures { result ≡ over_row top plane.now start count }
{
    for x in 0..count {
        let at = start + x;
        let v = plane[at];
        if top < v {
            return Some(at);
        }
    }
    None
}

// The same, by the row's largest where that is not too large.
pub fn row(plane: &[u16], start: usize, count: usize, top: u16) -> Option<usize>
    requires { start + count ≤ length plane.now }
    ensures { result ≡ over_row top plane.now start count }
{
    if most(plane, start, count) <= top {
        return None;
    }
    exact(plane, start, count, top)
}

// The first sample over top in rows of count samples, the first row at start and each a stride after the last.
pub fn samples(
    plane: &[u16],
    start: usize,
    stride: usize,
    count: usize,
    rows: usize,
    top: u16,
) -> Option<usize>
    requires { Box start stride count rows (length plane.now) }
    ensures { result ≡ over_box top plane.now start stride count rows }
{
    for y in 0..rows {
        let f = row(plane, start + y * stride, count, top);
        if let Some(k) = f {
            return Some(k);
        }
    }
    None
}
