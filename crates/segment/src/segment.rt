// One edge on a lent plane: the width chosen from its window, and its taps.
ghost use Rattle.std.specs.Prelude.{◌≡◌, ◌+◌, ◌*◌, ◌<◌, true, false, length};
ghost use Rattle.rules.specs.Segment.{placed, window_of, chosen_of, none_kept};
ghost use Rattle.width.specs.Tests.{off_of};
ghost use Rattle.segment.specs.Fit.{EdgeFits, Filtered, Chosen, InPlane, EdgeFiltered};

use super::read::read_lines;
use super::store::filter_lines;
use crate::outcome::Outcome;
use crate::widths::Widths;
use lengths::pairs::{most_after, most_before, reach_after, reach_before};
use rules::edge::{Edge, Place};
use width::choice::{filt_choice, off};

// How many samples after an edge are to be filtered, by its window and thresholds that are not 0. What else the choice takes is looked up
// first, so that the compiler reads each sample only where a test wants it.
fn chosen_width(plane: &[u16], e: Place) -> usize
    requires { EdgeFits e (length plane.now) × (off_of e.q e.side ≡ false) }
    ensures { result ≡ chosen_of e (window_of e plane.now) }
{
    let n = most_before(e.pair);
    let p = most_after(e.pair);
    let lines = read_lines(
        plane,
        e.at,
        e.step,
        e.line,
        reach_before(e.pair),
        reach_after(e.pair),
    );
    filt_choice(lines, n, p, e.q, e.side)
}

// Filters an edge that is given by offsets and has no threshold of 0, and answers what it came to; or, where it is not to store, its width alone.
// Both go through one call of the width choice: with two in the library the compiler passes its lines through memory.
pub fn filter_segment(plane: &mut [u16], e: Place, top: u16, stores: bool) -> Outcome
    requires { EdgeFits e (length plane.old) × (off_of e.q e.side ≡ false) }
    ensures { (stores ≡ true → Filtered top none_kept e plane.old result plane.new) × (stores ≡ false → Chosen e plane.old result plane.new) }
{
    let w = chosen_width(plane, e);
    if w == 0 {
        return Outcome {
            width: 0,
            stored: 0,
            changed: 0,
        };
    }
    if !stores {
        return Outcome {
            width: w,
            stored: 0,
            changed: 0,
        };
    }
    let n = w.min(most_before(e.pair));
    let t = filter_lines(plane, e, Widths::new(e.q, n, w, top));
    Outcome {
        width: w,
        stored: t.stored,
        changed: t.changed,
    }
}

// Where a vertical edge stands in rows of stride samples.
pub fn upright(e: Edge, stride: usize) -> Place
    requires { e.y * stride + e.x < 18446744073709551616 }
    ensures { result ≡ placed true stride e }
{
    Place {
        at: e.y * stride + e.x,
        step: 1,
        line: stride,
        pair: e.pair,
        q: e.q,
        side: e.side,
    }
}

// Where a horizontal one stands. A function for each direction: with it as an argument where an edge is visited a plane takes 4 % longer (docs/PACE.md).
pub fn level(e: Edge, stride: usize) -> Place
    requires { e.y * stride + e.x < 18446744073709551616 }
    ensures { result ≡ placed false stride e }
{
    Place {
        at: e.y * stride + e.x,
        step: stride,
        line: 1,
        pair: e.pair,
        q: e.q,
        side: e.side,
    }
}

// Filters an edge of columns by rows samples that lie in rows of stride samples; none of them is read where a threshold is 0. Each direction
// has a call of its own, so that the compiler keeps this function's tests with the caller and an edge that is off costs no call.
pub fn filter_edge(
    plane: &mut [u16],
    stride: usize,
    columns: usize,
    rows: usize,
    e: Edge,
    top: u16,
) -> Outcome
    requires { InPlane stride columns rows e (length plane.old) }
    ensures { EdgeFiltered top stride none_kept e plane.old result plane.new }
{
    if off(e.q, e.side) {
        return Outcome {
            width: 0,
            stored: 0,
            changed: 0,
        };
    }
    if e.dir == 0 {
        return filter_segment(plane, upright(e, stride), top, true);
    }
    filter_segment(plane, level(e, stride), top, true)
}
