// Signed numbers as counts, each raised by a fixed amount, so that the run adds and compares counts alone.
ghost use Rattle.std.specs.Prelude.{◌≡◌, ◌≤◌, ◌^◌};
ghost use Rattle.laws.specs.Whole.{Is};
ghost use Rattle.ccso_sample.specs.Ranges.{SignedWithin, Ranges, Raised, Sized};

use rounding::{halved, shifted, superblocks};
use rules::depth::Depth;
use rules::settings::Ccso;

// What the run asks of the settings: cuts raised by 4095, taps by 16, luma samples a target sample each way, and the top sample.
#[derive(Clone, Copy)]
pub struct Counts {
    pub lo: u32,
    pub hi: u32,
    pub dx0: usize,
    pub dy0: usize,
    pub dx1: usize,
    pub dy1: usize,
    pub across: usize,
    pub down: usize,
    pub top: u32,
}

// Sizes of the target: samples each way, a block's samples each way, and blocks across.
#[derive(Clone, Copy)]
pub struct Sizes {
    pub width: usize,
    pub height: usize,
    pub blockw: usize,
    pub blockh: usize,
    pub blocks: usize,
}

// The count r with v = r - by.
pub fn raised(v: i32, by: u32) -> u32
    requires { SignedWithin v by × (by ≤ 4095) }
    ensures { Is v result by }
{
    (v + by as i32) as u32
}

// How many luma samples a target sample has along a subsampling.
fn each_way(ss: usize) -> usize
    requires { ss ≤ 1 }
    ensures { result ≡ 2 ^ ss }
{
    if ss == 0 { 1 } else { 2 }
}

pub fn counts_of(s: Ccso) -> Counts
    requires { Ranges s }
    ensures { Raised s result }
{
    let d = Depth { bits: s.depth };
    Counts {
        lo: raised(s.lo, 4095),
        hi: raised(s.hi, 4095),
        dx0: raised(s.dx0, 16) as usize,
        dy0: raised(s.dy0, 16) as usize,
        dx1: raised(s.dx1, 16) as usize,
        dy1: raised(s.dy1, 16) as usize,
        across: each_way(s.ssx),
        down: each_way(s.ssy),
        top: d.top() as u32,
    }
}

// The target's sizes, as a frame's chroma counts them.
pub fn sizes_of(s: Ccso) -> Sizes
    requires { Ranges s }
    ensures { Sized s result }
{
    Sizes {
        width: halved(s.ssx, s.width),
        height: halved(s.ssy, s.height),
        blockw: shifted(s.ssx, 64),
        blockh: shifted(s.ssy, 64),
        blocks: superblocks(s.width),
    }
}
