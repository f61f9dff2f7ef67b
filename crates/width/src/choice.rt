// The width choice: how many samples after the edge are filtered.
ghost use Rattle.std.specs.Prelude.{◌≡◌, false, ltb, ◌≤◌};
ghost use Rattle.laws.specs.Choose.{either};
ghost use Rattle.rules.specs.Width.{width_of};
ghost use Rattle.width.specs.Tests.{off_of, one_of, two_of};
ghost use Rattle.width.specs.Ends.{ends};

use crate::bends::{across, beside};
use crate::distances::far;
use crate::ramps::steep;
use rules::edge::Line;

// Whether a threshold is 0: then no sample is filtered, whatever the lines hold, and none of them need be read.
pub fn off(q: u32, side: u32) -> bool
    ensures { result ≡ off_of q side }
{
    q == 0 || side == 0
}

// Whether the bends are over what a width allows; e is the larger of dm2 and d1, g is dm1 + d0.
fn bent(e: u32, g: u32, e_most: u32, g_most: u32) -> bool
    ensures { result ≡ either (ltb e_most e) (ltb g_most g) }
{
    e_most < e || g_most < g
}

// Whether one sample is the most, or the bends allow no more.
fn one_wide(p: usize, q: u32, side: u32, e: u32, g: u32) -> bool
    requires { q ≤ 2048 }
    ensures { result ≡ one_of p q side e g }
{
    p == 1 || bent(e, g, side / 4, 4 * q)
}

// Whether the bends allow no more than two samples.
fn two_wide(q: u32, side: u32, e: u32, g: u32) -> bool
    requires { q ≤ 2048 }
    ensures { result ≡ two_of q side e g }
{
    bent(e, g, side / 8, 3 * q)
}

// The width by lines 0 and 3; a function of its own, so that what it calls is inlined.
fn width_of(a: Line, b: Line, n: usize, p: usize, q: u32, side: u32) -> usize
    requires { (p ≤ 8) × (q ≤ 2048) × (side ≤ 839) × (off_of q side ≡ false) }
    ensures { result ≡ width_of (ends a b) n p q side }
{
    let e = beside(a, b);
    let g = across(a, b);
    if side < e {
        return 0;
    }
    if one_wide(p, q, side, e, g) {
        return 1;
    }
    if two_wide(q, side, e, g) {
        return 2;
    }
    if steep(a, b, n, 3, 3 * side / 16) {
        return 2;
    }
    if p == 3 {
        return 3;
    }
    far(a, b, n, p, q, side, g)
}

// How many samples to filter after the edge, of at most n before it and p after it, by thresholds that are not 0.
pub fn filt_choice(lines: [Line; 4], n: usize, p: usize, q: u32, side: u32) -> usize
    requires { (p ≤ 8) × (q ≤ 2048) × (side ≤ 839) × (off_of q side ≡ false) }
    ensures { result ≡ width_of lines n p q side }
{
    width_of(lines[0], lines[3], n, p, q, side)
}
