// The taps of document 01, line after line, each from the edge outwards; a sample is read just before it is moved, and counted where that changes it.
ghost use Rattle.std.specs.Prelude.{◌≡◌, ℕ, ◌+◌, ◌-◌, ◌*◌, ◌<◌, ◌≤◌, List, length};
ghost use Rattle.laws.specs.Changes.{Put};
ghost use Rattle.segment.specs.Sides.{along_stores, against_stores, both_stores, Paired, line_taps, four_taps, Lane, Lanes, none, Tapped};

use crate::widths::Widths;
use rules::counts::Counts;
use rules::edge::Place;
use taps::difference::limited;
use taps::moves::Move;

// The s samples of a line before the edge, moved by D·W of this sign and size; how many changed, with those so far.
// By offsets, here and below: the samples of a side stand a step apart in the plane, outwards from the edge.
fn side_before(plane: &mut [u16], at: usize, step: usize, s: usize, m: Move, sofar: usize) -> usize
    requires { (s ≤ 8) × (sofar ≤ 64) × (1 ≤ step) × (s * step ≤ at) × (at < length plane.old) }
    ensures { (Put (along_stores m.top at step s m.plus m.by plane.old s) plane.old plane.new sofar result) × (result ≤ sofar + s) }
{
    let mut changed = sofar;
    for i in 0..s {
        let k = at - (i + 1) * step;
        let p = m.before(plane[k], s - i);
        plane[k] = p.to;
        changed += p.changed;
    }
    changed
}

// The s samples of a line after the edge. A function for each side: with the side as an argument every clause would have two cases.
fn side_after(plane: &mut [u16], at: usize, step: usize, s: usize, m: Move, sofar: usize) -> usize
    requires { (s ≤ 8) × (sofar ≤ 64) × (1 ≤ step) × (at + (s - 1) * step < length plane.old) }
    ensures { (Put (against_stores m.top at step s m.plus m.by plane.old s) plane.old plane.new sofar result) × (result ≤ sofar + s) }
{
    let mut changed = sofar;
    for i in 0..s {
        let k = at + i * step;
        let q = m.after(plane[k], s - i);
        plane[k] = q.to;
        changed += q.changed;
    }
    changed
}

// How many pairs of a line were moved with no limit met, and how many of these moves were not 0.
#[derive(Clone, Copy)]
struct Plain {
    done: usize,
    moved: usize,
}

// The pairs of a line from the edge outwards, where both widths are s, up to the first that meets a limit.
fn plain_pairs(plane: &mut [u16], at: usize, step: usize, s: usize, m: Move) -> Plain
    requires { (s ≤ 8) × (1 ≤ step) × (s * step ≤ at) × (at + (s - 1) * step < length plane.old) }
    ensures { (Paired m.top at step s m.plus m.by plane.old result.done plane.new 0 (2 * result.moved)) × (result.done ≤ s) × (result.moved ≤ result.done) }
{
    let mut moved: usize = 0;
    for i in 0..s {
        let k = at - (i + 1) * step;
        let o = at + i * step;
        let Some(t) = m.pair(plane[k], plane[o], s - i) else {
            return Plain {
                done: i,
                moved: moved,
            };
        };
        plane[k] = t.first;
        plane[o] = t.second;
        moved += t.moved;
    }
    Plain {
        done: s,
        moved: moved,
    }
}

// The pairs from the one `from` on, each sample with its limits; how many changed, with those so far.
fn pairs_from(
    plane: &mut [u16],
    at: usize,
    step: usize,
    s: usize,
    m: Move,
    from: usize,
    sofar: usize,
) -> usize
    requires { (s ≤ 8) × (1 ≤ step) × (s * step ≤ at) × (at + (s - 1) * step < length plane.old) × (from ≤ s) × (sofar ≤ 80) }
    ensures { ((l : List ℕ) (n : ℕ) → Paired m.top at step s m.plus m.by l from plane.old n sofar → Paired m.top at step s m.plus m.by l s plane.new n result) × (result ≤ sofar + 2 * (s - from)) }
{
    let mut changed = sofar;
    for i in from..s {
        let k = at - (i + 1) * step;
        let p = m.before(plane[k], s - i);
        plane[k] = p.to;
        let o = at + i * step;
        let q = m.after(plane[o], s - i);
        plane[o] = q.to;
        changed += p.changed + q.changed;
    }
    changed
}

// The s samples of a line on either side of the edge, where both widths are s: each move is worked out once for two samples. Most meet no limit,
// and are told from the others by a test that the processor foresees.
fn both_sides(plane: &mut [u16], at: usize, step: usize, s: usize, m: Move, sofar: usize) -> usize
    requires { (s ≤ 8) × (sofar ≤ 64) × (1 ≤ step) × (s * step ≤ at) × (at + (s - 1) * step < length plane.old) }
    ensures { (Put (both_stores m.top at step s s m.plus m.by m.by plane.old) plane.old plane.new sofar result) × (result ≤ sofar + 2 * s) }
{
    let e = plain_pairs(plane, at, step, s, m);
    pairs_from(plane, at, step, s, m, e.done, sofar + 2 * e.moved)
}

// Both sides of a line, by its D; how many are stored and changed, with those so far.
fn apply_taps(plane: &mut [u16], at: usize, step: usize, t: Widths, sofar: Counts) -> Counts
    requires { (Lane at step t.n t.w (length plane.old)) × (sofar.stored ≤ 48) × (sofar.changed ≤ 48) }
    ensures { (Tapped (line_taps t.top at step t.n t.w t.limit plane.old) plane.old sofar result plane.new) × (result.stored ≤ sofar.stored + 16) × (result.changed ≤ sofar.changed + 16) }
{
    let d = limited(
        plane[at - step - step],
        plane[at - step],
        plane[at],
        plane[at + step],
        t.limit,
    );
    let after = t.moves_after(d);
    let changed = if t.n == t.w {
        both_sides(plane, at, step, t.w, after, sofar.changed)
    } else {
        let p = side_before(plane, at, step, t.n, t.moves_before(d), sofar.changed);
        side_after(plane, at, step, t.w, after, p)
    };
    Counts {
        stored: sofar.stored + (t.n + t.w),
        changed: changed,
    }
}

// The four lines of an edge.
pub fn filter_lines(plane: &mut [u16], e: Place, t: Widths) -> Counts
    requires { Lanes e.at e.step e.line t.n t.w (length plane.old) }
    ensures { Tapped (four_taps t.top e.at e.step e.line t.n t.w t.limit plane.old) plane.old none result plane.new }
{
    let mut done = Counts {
        stored: 0,
        changed: 0,
    };
    for j in 0..4 {
        done = apply_taps(plane, e.at + j * e.line, e.step, t, done);
    }
    done
}
