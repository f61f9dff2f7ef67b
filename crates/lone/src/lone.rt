// A segment alone: any numbers and any plane, the checks of document 01 in their order, and the edge where they all pass.
ghost use Rattle.std.specs.Prelude.{◌≡◌, ◌≤◌, length};
ghost use Rattle.rules.specs.Refusals.{found};
ghost use Rattle.rules.specs.declared.refusals.Refusal.TheVariants.{Sample};
ghost use Rattle.rules.specs.Lone.{edge_of, sizes_ok, over_edge, lone_check};
ghost use Rattle.segment.specs.Fit.{InPlane};
ghost use Rattle.lone.specs.Stated.{Stated};

use checks::{in_range, samples};
use lengths::pairs::{reach_after, reach_before};
use lengths::ranges::ranges_ok;
use lengths::room::has_room;
use rules::depth::Depth;
use rules::edge::Edge;
use rules::refusals::{Filtered, Refusal};
use rules::settings::Lone;
use segment::filter_edge;

fn sizes_ok(s: Lone) -> bool
    ensures { result ≡ sizes_ok s }
{
    if !in_range(1, 4096, s.columns) {
        return false;
    }
    if !in_range(1, 4096, s.rows) {
        return false;
    }
    in_range(s.columns, 8192, s.stride)
}

fn edge_of(s: Lone) -> Edge
    ensures { (result ≡ edge_of s) × (result.x ≤ 65535) × (result.y ≤ 65535) }
{
    Edge {
        x: s.x as usize,
        y: s.y as usize,
        dir: s.dir,
        pair: s.pair,
        q: s.q,
        side: s.side,
    }
}

// The first sample over top within the reach on the four lines, row by row over the plane.
fn over_edge(
    plane: &[u16],
    stride: usize,
    columns: usize,
    rows: usize,
    e: Edge,
    top: u16,
) -> Option<usize>
    requires { InPlane stride columns rows e (length plane.now) }
    ensures { result ≡ over_edge top stride e plane.now }
{
    let b = reach_before(e.pair);
    let a = reach_after(e.pair);
    if e.dir == 0 {
        samples(plane, e.y * stride + (e.x - b), stride, b + a, 4, top)
    } else {
        samples(plane, (e.y - b) * stride + e.x, stride, 4, b + a, top)
    }
}

fn over_check(
    plane: &[u16],
    stride: usize,
    columns: usize,
    rows: usize,
    e: Edge,
    top: u16,
) -> Result<(), Refusal>
    requires { InPlane stride columns rows e (length plane.now) }
    ensures { result ≡ found (over_edge top stride e plane.now) Sample }
{
    let f = over_edge(plane, stride, columns, rows, e, top);
    match f {
        Some(k) => Err(Refusal::Sample(k)),
        None => Ok(()),
    }
}

fn lone_check(plane: &[u16], s: Lone) -> Result<(), Refusal>
    ensures { result ≡ lone_check s plane.now }
{
    if !Depth::is(s.depth) {
        return Err(Refusal::Depth);
    }
    if !sizes_ok(s) {
        return Err(Refusal::Size);
    }
    if plane.len() < s.rows * s.stride {
        return Err(Refusal::Length);
    }
    let e = edge_of(s);
    if !ranges_ok(e) {
        return Err(Refusal::Setting);
    }
    if !has_room(s.columns, s.rows, e) {
        return Err(Refusal::Room(0));
    }
    let d = Depth { bits: s.depth };
    over_check(plane, s.stride, s.columns, s.rows, e, d.top())
}

// Filters one edge of a plane, and answers how many samples after it were filtered, or why not, and how many were stored and changed; a
// refusal leaves the plane as it was and counts none.
pub fn filter_lone(plane: &mut [u16], s: Lone) -> Result<Filtered, Refusal>
    ensures { Stated s plane.old result plane.new }
{
    lone_check(plane, s)?;
    let d = Depth { bits: s.depth };
    let o = filter_edge(plane, s.stride, s.columns, s.rows, edge_of(s), d.top());
    Ok(Filtered {
        width: o.width,
        stored: o.stored,
        changed: o.changed,
    })
}
