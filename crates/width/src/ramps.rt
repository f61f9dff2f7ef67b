// Ramps: how far the sample k steps out is from the line through the first two, over the two lines that decide.
ghost use Rattle.std.specs.Prelude.{◌≡◌, ◌+◌, ◌≤◌, leb};
ghost use Rattle.laws.specs.Choose.{pick};
ghost use Rattle.rules.specs.Width.{slope_of, steep_of};
ghost use Rattle.width.specs.Ends.{ends, slopes_of};

use rules::edge::Line;

// |(a0 - ak) - k(a0 - a1)|
fn slope(k: u32, a0: u16, a1: u16, ak: u16) -> u32
    requires { k ≤ 8 }
    ensures { (result ≡ slope_of k a0 a1 ak) × (result ≤ 589815) }
{
    (a0 as u32 + k * (a1 as u32)).abs_diff(ak as u32 + k * (a0 as u32))
}

// One side of both lines: twice the ramp, but for the rounding.
fn slopes(a: [u16; 9], b: [u16; 9], k: usize) -> u32
    requires { k ≤ 8 }
    ensures { (result ≡ slopes_of k a b) × (result ≤ 1179630) }
{
    slope(k as u32, a[0], a[1], a[k]) + slope(k as u32, b[0], b[1], b[k])
}

// The one before the edge, which counts only if n >= k. It is worked out in either case, so that no arms meet before the next test: the
// compiler then loads the samples further out only where a later test wants them.
fn slopes_counted(a: Line, b: Line, n: usize, k: usize) -> u32
    requires { k ≤ 8 }
    ensures { result ≡ pick (leb k n) (slopes_of k a.p b.p) 0 }
{
    let x = slopes(a.p, b.p, k);
    if n < k { 0 } else { x }
}

// Whether a ramp is over the limit: the larger sum of two slopes against twice the limit.
pub fn steep(a: Line, b: Line, n: usize, k: usize, limit: u32) -> bool
    requires { (k ≤ 8) × (limit ≤ 839) }
    ensures { result ≡ steep_of (ends a b) n k limit }
{
    2 * limit < slopes(a.q, b.q, k).max(slopes_counted(a, b, n, k))
}
