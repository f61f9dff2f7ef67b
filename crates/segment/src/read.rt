// The four lines that the width choice looks at, each side read from the edge outwards; beyond the reach its last sample is repeated.
ghost use Rattle.std.specs.Prelude.{◌≡◌, ◌+◌, ◌*◌, ◌<◌, ◌≤◌, min, length};
ghost use Rattle.segment.specs.Near.{near_before, near_after, near_line, near_lines, Span};
ghost use Rattle.segment.specs.Fit.{Room};

use rules::edge::Line;

// k steps outwards, or as many as lead to the last sample of the reach.
fn out(step: usize, k: usize, last: usize) -> usize
    requires { step * last < 18446744073709551616 }
    ensures { (result ≡ step * min k last) × (result ≤ step * last) }
{
    step * k.min(last)
}

// The samples before the edge, p0 at `at`.
fn read_before(plane: &[u16], at: usize, step: usize, last: usize) -> [u16; 9]
    requires { (2 ≤ last) × (2 * step ≤ at) × (step * last ≤ at) × (at < length plane.now) }
    ensures { result ≡ near_before plane.now at step last }
{
    [
        plane[at],
        plane[at - step],
        plane[at - 2 * step],
        plane[at - out(step, 3, last)],
        plane[at - out(step, 4, last)],
        plane[at - out(step, 5, last)],
        plane[at - out(step, 6, last)],
        plane[at - out(step, 7, last)],
        plane[at - out(step, 8, last)],
    ]
}

// The samples after the edge, q0 at `at`. A function for each side: with the side as an argument every clause would have two cases.
fn read_after(plane: &[u16], at: usize, step: usize, last: usize) -> [u16; 9]
    requires { (2 ≤ last) × (at + 2 * step < length plane.now) × (at + step * last < length plane.now) }
    ensures { result ≡ near_after plane.now at step last }
{
    [
        plane[at],
        plane[at + step],
        plane[at + 2 * step],
        plane[at + out(step, 3, last)],
        plane[at + out(step, 4, last)],
        plane[at + out(step, 5, last)],
        plane[at + out(step, 6, last)],
        plane[at + out(step, 7, last)],
        plane[at + out(step, 8, last)],
    ]
}

fn read_line(plane: &[u16], at: usize, step: usize, b: usize, a: usize) -> Line
    requires { Span at step b a (length plane.now) }
    ensures { result ≡ near_line plane.now at step b a }
{
    let p = read_before(plane, at - step, step, b - 1);
    let q = read_after(plane, at, step, a - 1);
    Line { p: p, q: q }
}

// The four lines of an edge whose reach is b samples before it and a after it.
pub fn read_lines(
    plane: &[u16],
    at: usize,
    step: usize,
    line: usize,
    b: usize,
    a: usize,
) -> [Line; 4]
    requires { (3 ≤ b) × (3 ≤ a) × (Room at step line b a (length plane.now)) }
    ensures { result ≡ near_lines plane.now at step line b a }
{
    let l0 = read_line(plane, at, step, b, a);
    let l1 = read_line(plane, at + line, step, b, a);
    let l2 = read_line(plane, at + 2 * line, step, b, a);
    let l3 = read_line(plane, at + 3 * line, step, b, a);
    [l0, l1, l2, l3]
}
