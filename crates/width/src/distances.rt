// The tests at the distances 4, 6 and 8, which stop at the first failure.
ghost use Rattle.std.specs.Prelude.{◌≡◌, ◌*◌, ◌/◌, ◌≤◌};
ghost use Rattle.rules.specs.Width.{at_distance, fails_of, far_of};
ghost use Rattle.width.specs.Ends.{ends, Distance};

use crate::ramps::steep;
use rules::edge::Line;

// What sixteen times dm1 + d0 may be.
fn q_limit(q: u32, d: usize) -> u32
    requires { (q ≤ 2048) × Distance d }
    ensures { result ≡ q * at_distance 45 40 32 d }
{
    match d {
        4 => q * 45,
        6 => q * 40,
        _ => q * 32,
    }
}

// The k of the ramp that is tested.
fn ramp_at(d: usize) -> usize
    requires { Distance d }
    ensures { (result ≡ at_distance 4 6 7 d) × (result ≤ 8) }
{
    match d {
        4 => 4,
        6 => 6,
        _ => 7,
    }
}

// The width where the test fails.
fn failed(d: usize) -> usize
    requires { Distance d }
    ensures { result ≡ at_distance 3 4 6 d }
{
    match d {
        4 => 3,
        6 => 4,
        _ => 6,
    }
}

// What a ramp may be.
fn ramp_limit(side: u32, d: usize) -> u32
    requires { (side ≤ 839) × Distance d }
    ensures { (result ≡ side * d / 16) × (result ≤ 839) }
{
    side * (d as u32) / 16
}

// The test at one distance; g is dm1 + d0.
fn fails(a: Line, b: Line, n: usize, q: u32, side: u32, g: u32, d: usize) -> bool
    requires { (q ≤ 2048) × (side ≤ 839) × (g ≤ 262140) × Distance d }
    ensures { result ≡ fails_of (ends a b) n q side g d }
{
    q_limit(q, d) < 16 * g || steep(a, b, n, ramp_at(d), ramp_limit(side, d))
}

// The width by these tests, of at most p samples after the edge.
pub fn far(a: Line, b: Line, n: usize, p: usize, q: u32, side: u32, g: u32) -> usize
    requires { (p ≤ 8) × (q ≤ 2048) × (side ≤ 839) × (g ≤ 262140) }
    ensures { result ≡ far_of (ends a b) n p q side g }
{
    // A loop that breaks with the width, and no `for`: at 8 it breaks in either case, and `for` would want a value after its last turn.
    let mut d: usize = 4;
    loop {
        if fails(a, b, n, q, side, g, d) {
            break failed(d);
        }
        if p <= d {
            break d;
        }
        d += 2;
    }
}
