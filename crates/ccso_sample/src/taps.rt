// Where a tap stands, limited to the picture, and the class of its difference.
ghost use Rattle.std.specs.Prelude.{◌≡◌, ◌≤◌, ◌<◌, ◌-◌, ◌+◌, ℤ, pos, ◌+ℤ◌};
ghost use Rattle.laws.specs.Whole.{Is, between};
ghost use Rattle.rules.specs.Ccso.{tap_class};
ghost use Rattle.ccso_sample.specs.Ranges.{Ranges, Raised};

use crate::counts::Counts;
use rules::settings::Ccso;

// Row y of the target: where it starts, where its luma rows start (its own and both taps'), and where its flags do.
#[derive(Clone, Copy)]
pub struct Row {
    pub y: usize,
    pub at: usize,
    pub centre: usize,
    pub tap0: usize,
    pub tap1: usize,
    pub flags: usize,
}

// The place dx from at, limited to 0..size - 1, where dx = raised - 16.
pub fn limited(at: usize, raised: usize, size: usize) -> usize
    requires { (1 ≤ size) × (at ≤ 8192) × (raised ≤ 32) }
    ensures { (result < size) × ((dx : ℤ) → Is dx raised 16 → result ≡ between 0 (size - 1) (pos at +ℤ dx)) }
{
    let to = at + raised;
    if to < 16 {
        return 0;
    }
    let last = size - 1;
    if to - 16 < last { to - 16 } else { last }
}

// The class number of a tap beside its centre c.
pub fn classify(s: Ccso, k: Counts, tap: u16, c: u16) -> u32
    requires { Raised s k }
    ensures { result ≡ tap_class s tap c }
{
    let t = tap as u32 + 4095;
    let c = c as u32;
    if t < c + k.lo {
        return s.below;
    }
    if t <= c + k.hi {
        return s.within;
    }
    s.above
}
