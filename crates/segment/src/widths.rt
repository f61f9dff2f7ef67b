// The widths of an edge with what they are looked up for once: how its four lines are moved.
ghost use Rattle.std.specs.Prelude.{◌≡◌, ◌*◌, ◌≤◌};
ghost use Rattle.rules.specs.Taps.{most_of};
ghost use Rattle.segment.specs.Sides.{Scales};

use taps::difference::Difference;
use taps::moves::Move;
use taps::tables::{limit_of, weight, weighted};

// How many samples are moved before the edge and after it, how far D may go either way, the weights of both sides, and the largest sample.
#[derive(Clone, Copy)]
pub struct Widths {
    pub n: usize,
    pub w: usize,
    pub limit: u32,
    pub before: u32,
    pub after: u32,
    pub top: u16,
    ghost scales: { Scales n w limit before after },
}

impl Widths {
    // Those of an edge of threshold q.
    pub fn new(q: u32, n: usize, w: usize, top: u16) -> Widths
        requires { (q ≤ 2048) × (1 ≤ n) × (n ≤ 8) × (1 ≤ w) × (w ≤ 8) }
        ensures { (result.n ≡ n) × (result.w ≡ w) × (result.limit ≡ q * most_of w) × (result.top ≡ top) }
    {
        Widths {
            n: n,
            w: w,
            limit: limit_of(q, w),
            before: weight(n),
            after: weight(w),
            top: top,
        }
    }

    // How D moves a line's samples before the edge.
    pub fn moves_before(self, d: Difference) -> Move
        requires { d.size ≤ self.limit }
        ensures { (result.plus ≡ d.plus) × (result.by ≡ d.size * self.before) × (result.top ≡ self.top) }
    {
        Move {
            plus: d.plus,
            by: weighted(d.size, self.before),
            top: self.top,
        }
    }

    // How D moves them after the edge.
    pub fn moves_after(self, d: Difference) -> Move
        requires { d.size ≤ self.limit }
        ensures { (result.plus ≡ d.plus) × (result.by ≡ d.size * self.after) × (result.top ≡ self.top) }
    {
        Move {
            plus: d.plus,
            by: weighted(d.size, self.after),
            top: self.top,
        }
    }
}
