// Bends: how far three samples in a row are from a straight line, averaged over the two lines that decide.
ghost use Rattle.std.specs.Prelude.{◌≡◌, ◌+◌, ◌≤◌, max};
ghost use Rattle.rules.specs.Width.{avg, bend_of, dm2_of, d1_of, dm1_of, d0_of};
ghost use Rattle.width.specs.Ends.{ends};

use rules::edge::Line;

// |a - 2b + c|
fn bend(a: u16, b: u16, c: u16) -> u32
    ensures { (result ≡ bend_of a b c) × (result ≤ 131070) }
{
    (a as u32 + c as u32).abs_diff(2 * (b as u32))
}

// The average over two lines, rounded up.
fn mean_bend(a: u16, b: u16, c: u16, d: u16, e: u16, f: u16) -> u32
    ensures { (result ≡ avg (bend_of a b c) (bend_of d e f)) × (result ≤ 131070) }
{
    (bend(a, b, c) + bend(d, e, f)).div_ceil(2)
}

// The larger of dm2 and d1, which lie on one side of the edge each.
pub fn beside(a: Line, b: Line) -> u32
    ensures { result ≡ max (dm2_of (ends a b)) (d1_of (ends a b)) }
{
    let before = mean_bend(a.p[2], a.p[1], a.p[0], b.p[2], b.p[1], b.p[0]);
    let after = mean_bend(a.q[0], a.q[1], a.q[2], b.q[0], b.q[1], b.q[2]);
    before.max(after)
}

// dm1 + d0, which lie across the edge.
pub fn across(a: Line, b: Line) -> u32
    ensures { (result ≡ dm1_of (ends a b) + d0_of (ends a b)) × (result ≤ 262140) }
{
    mean_bend(a.p[1], a.p[0], a.q[0], b.p[1], b.p[0], b.q[0])
        + mean_bend(a.p[0], a.q[0], a.q[1], b.p[0], b.q[0], b.q[1])
}
