// Document 01's window of an edge as the rules write it, sample by sample; where no sample is stored before it is read. Edges next to kept cells alone use it.
ghost use Rattle.std.specs.Prelude.{◌≡◌, ◌+◌, ◌*◌, ◌-◌, ◌≤◌, ◌<◌, length};
ghost use Rattle.rules.specs.Segment.{before_of, after_of, line_of, lines_of, window_of};
ghost use Rattle.segment.specs.Fit.{Room, EdgeFits};

use lengths::pairs::{reach_after, reach_before};
use rules::edge::{Line, Place};

// The b samples of a line before the edge, q0 at `at`. By offsets: they stand a step apart in the plane, outwards from the edge.
fn window_before(plane: &[u16], at: usize, step: usize, b: usize) -> [u16; 9]
    requires { (b ≤ 8) × (b * step ≤ at) × (at < length plane.now) }
    ensures { result ≡ before_of plane.now at step b }
{
    let mut p = [0u16; 9];
    for i in 0..b {
        let k = at - (i + 1) * step;
        p[i] = plane[k];
    }
    p
}

// The a samples of a line after it. A function for each side: with the side as an argument every clause would have two cases.
fn window_after(plane: &[u16], at: usize, step: usize, a: usize) -> [u16; 9]
    requires { (a ≤ 8) × (at + (a - 1) * step < length plane.now) }
    ensures { result ≡ after_of plane.now at step a }
{
    let mut q = [0u16; 9];
    for i in 0..a {
        let k = at + i * step;
        q[i] = plane[k];
    }
    q
}

fn window_line(plane: &[u16], at: usize, step: usize, b: usize, a: usize) -> Line
    requires { (b ≤ 8) × (a ≤ 8) × (b * step ≤ at) × (at + (a - 1) * step < length plane.now) }
    ensures { result ≡ line_of plane.now at step b a }
{
    let p = window_before(plane, at, step, b);
    let q = window_after(plane, at, step, a);
    Line { p: p, q: q }
}

// Its four lines.
fn window_lines(plane: &[u16], at: usize, step: usize, line: usize, b: usize, a: usize) -> [Line; 4]
    requires { Room at step line b a (length plane.now) }
    ensures { result ≡ lines_of plane.now at step line b a }
{
    let none = Line {
        p: [0; 9],
        q: [0; 9],
    };
    let mut lines = [none; 4];
    for j in 0..4 {
        lines[j] = window_line(plane, at + j * line, step, b, a);
    }
    lines
}

// All that an edge may look at.
pub fn window(plane: &[u16], e: Place) -> [Line; 4]
    requires { EdgeFits e (length plane.now) }
    ensures { result ≡ window_of e plane.now }
{
    window_lines(
        plane,
        e.at,
        e.step,
        e.line,
        reach_before(e.pair),
        reach_after(e.pair),
    )
}
