// Document 02, ticket 7: an edge of a plane with kept cells. Where some of its own are kept, all its samples are read first, and each is then
// stored unless its cell is kept; where none is, it is filtered as any edge.
ghost use Rattle.std.specs.Prelude.{◌≡◌, false, [], ◌∷◌, ◌+◌, ◌-◌, ◌*◌, ◌≤◌, ◌<◌, length, get_or};
ghost use Rattle.laws.specs.Changes.{differ};
ghost use Rattle.rules.specs.Segment.{p_at, q_at, placed, edge_place, kept_in};
ghost use Rattle.width.specs.Tests.{off_of};
ghost use Rattle.segment.specs.Sides.{Lane, Lanes, none};
ghost use Rattle.segment.specs.Fit.{EdgeFits, Filtered, InPlane, EdgeFiltered};
ghost use Rattle.kept.specs.Kept.{along_line, against_line, line_open, lines_open, Holds, HoldsLine, HoldsLines, Swept, Few, Somewhere};

use super::marks::{Kept, all_open};
use super::window::window;
use lengths::pairs::most_before;
use rules::counts::Counts;
use rules::edge::{Edge, Line, Place};
use segment::{Outcome, Widths, filter_edge, filter_segment, level, upright};
use taps::difference::limited;
use taps::moves::{Move, Moved};
use width::choice::off;

// Stores a sample that was moved, unless its cell is kept; the counts, with those so far.
fn put_open(plane: &mut [u16], kept: Kept, k: usize, x: Moved, sofar: Counts) -> Counts
    requires { (k < length plane.old) × (x.changed ≤ 1) × (sofar.stored ≤ 64) × (sofar.changed ≤ 64) }
    ensures { (Swept (kept_in kept.entry.cols kept.entry.stride kept.entry.keep.now) ((k, x.to) ∷ []) (λ l. x.changed ≡ differ (get_or l k 0) x.to) plane.old sofar result plane.new) × Few 1 sofar result }
{
    if kept.at(k) {
        return sofar;
    }
    plane[k] = x.to;
    Counts {
        stored: sofar.stored + 1,
        changed: sofar.changed + x.changed,
    }
}

// The s samples p of a line before the edge, moved by D·W of this sign and size.
// By offsets, here and below: the samples of a side stand a step apart in the plane, outwards from the edge.
fn before_open(
    plane: &mut [u16],
    kept: Kept,
    p: [u16; 9],
    at: usize,
    step: usize,
    s: usize,
    m: Move,
    sofar: Counts,
) -> Counts
    requires { (s ≤ 8) × (s * step ≤ at) × (at < length plane.old) × (sofar.stored ≤ 56) × (sofar.changed ≤ 56) }
    ensures { (Swept (kept_in kept.entry.cols kept.entry.stride kept.entry.keep.now) (along_line m.top at step s m.plus m.by p s) (Holds (p_at at step) s p) plane.old sofar result plane.new) × Few s sofar result }
{
    let mut done = sofar;
    for i in 0..s {
        let x = m.before(p[i], s - i);
        let k = at - (i + 1) * step;
        done = put_open(plane, kept, k, x, done);
    }
    done
}

// The s samples q of a line after the edge. A function for each side: with the side as an argument every clause would have two cases.
fn after_open(
    plane: &mut [u16],
    kept: Kept,
    q: [u16; 9],
    at: usize,
    step: usize,
    s: usize,
    m: Move,
    sofar: Counts,
) -> Counts
    requires { (s ≤ 8) × (at + (s - 1) * step < length plane.old) × (sofar.stored ≤ 56) × (sofar.changed ≤ 56) }
    ensures { (Swept (kept_in kept.entry.cols kept.entry.stride kept.entry.keep.now) (against_line m.top at step s m.plus m.by q s) (Holds (q_at at step) s q) plane.old sofar result plane.new) × Few s sofar result }
{
    let mut done = sofar;
    for i in 0..s {
        let x = m.after(q[i], s - i);
        let k = at + i * step;
        done = put_open(plane, kept, k, x, done);
    }
    done
}

// Both sides of a line, by its D.
fn line_open(
    plane: &mut [u16],
    kept: Kept,
    l: Line,
    at: usize,
    step: usize,
    t: Widths,
    sofar: Counts,
) -> Counts
    requires { (Lane at step t.n t.w (length plane.old)) × (sofar.stored ≤ 48) × (sofar.changed ≤ 48) }
    ensures { (Swept (kept_in kept.entry.cols kept.entry.stride kept.entry.keep.now) (line_open t.top at step t.n t.w t.limit l) (HoldsLine at step t.n t.w l) plane.old sofar result plane.new) × Few 16 sofar result }
{
    let p = l.p;
    let q = l.q;
    let d = limited(p[1], p[0], q[0], q[1], t.limit);
    let done = before_open(plane, kept, p, at, step, t.n, t.moves_before(d), sofar);
    after_open(plane, kept, q, at, step, t.w, t.moves_after(d), done)
}

// The four lines of an edge.
fn lines_open(plane: &mut [u16], kept: Kept, lines: [Line; 4], e: Place, t: Widths) -> Counts
    requires { Lanes e.at e.step e.line t.n t.w (length plane.old) }
    ensures { Swept (kept_in kept.entry.cols kept.entry.stride kept.entry.keep.now) (lines_open t.top e.at e.step e.line t.n t.w t.limit lines) (HoldsLines e.at e.step e.line t.n t.w lines) plane.old none result plane.new }
{
    let mut done = Counts {
        stored: 0,
        changed: 0,
    };
    for j in 0..4 {
        done = line_open(plane, kept, lines[j], e.at + j * e.line, e.step, t, done);
    }
    done
}

// Filters an edge that is given by offsets and has no threshold of 0, and answers what it came to.
fn segment_open(plane: &mut [u16], kept: Kept, e: Place, top: u16) -> Outcome
    requires { EdgeFits e (length plane.old) × (off_of e.q e.side ≡ false) }
    ensures { Filtered top (kept_in kept.entry.cols kept.entry.stride kept.entry.keep.now) e plane.old result plane.new }
{
    let o = filter_segment(plane, e, top, false);
    let w = o.width;
    if w == 0 {
        return Outcome {
            width: 0,
            stored: 0,
            changed: 0,
        };
    }
    let n = w.min(most_before(e.pair));
    let t = lines_open(
        plane,
        kept,
        window(plane, e),
        e,
        Widths::new(e.q, n, w, top),
    );
    Outcome {
        width: w,
        stored: t.stored,
        changed: t.changed,
    }
}

// Where an edge stands in rows of stride samples, an upright one or a level one.
fn place(e: Edge, stride: usize, stands: bool) -> Place
    requires { e.y * stride + e.x < 18446744073709551616 }
    ensures { result ≡ placed stands stride e }
{
    if stands {
        return upright(e, stride);
    }
    level(e, stride)
}

// Filters an edge of a plane of which some cells are kept; `stands` says whether it is a vertical one.
fn filter_kept(
    plane: &mut [u16],
    keep: &[u8],
    cols: usize,
    stride: usize,
    e: Edge,
    stands: bool,
    top: u16,
) -> Outcome
    requires { Somewhere stride e (length plane.old) × (cols ≤ stride) × (placed stands stride e ≡ edge_place stride e) }
    ensures { EdgeFiltered top stride (kept_in cols stride keep.now) e plane.old result plane.new }
{
    if off(e.q, e.side) {
        return Outcome {
            width: 0,
            stored: 0,
            changed: 0,
        };
    }
    let p = place(e, stride, stands);
    if all_open(keep, cols, e) {
        return filter_segment(plane, p, top, true);
    }
    segment_open(plane, Kept { keep, cols, stride }, p, top)
}

// Filters an edge of columns by rows samples that lie in rows of stride samples, cols cells in a row; a keep mark for each cell, or an empty list
// where none is kept, which costs one test. Each direction has a call of its own, so that the compiler leaves what kept cells ask for out of the walk.
pub fn filter_marked(
    plane: &mut [u16],
    keep: &[u8],
    cols: usize,
    stride: usize,
    columns: usize,
    rows: usize,
    e: Edge,
    top: u16,
) -> Outcome
    requires { InPlane stride columns rows e (length plane.old) × (cols ≤ stride) }
    ensures { EdgeFiltered top stride (kept_in cols stride keep.now) e plane.old result plane.new }
{
    if keep.len() == 0 {
        return filter_edge(plane, stride, columns, rows, e, top);
    }
    if e.dir == 0 {
        return filter_kept(plane, keep, cols, stride, e, true, top);
    }
    filter_kept(plane, keep, cols, stride, e, false, top)
}
