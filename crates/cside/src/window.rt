// One segment for C: the window as bytes, the width as the answer, and both counts in a list.
ghost use Rattle.cside.specs.Segment.{SegmentTold};

use answers::{count, minus, put_counts};
use byte_lists::window as lent;
use lone::filter_lone;
use rules::depth::Depth;
use rules::refusals::Refusal;

// The width, or minus the refusal number; `counts` tells of none until the segment is filtered.
#[unsafe(no_mangle)]
pub extern "C" fn bihargesh_segment(
    window: &mut [u8],
    depth: u32,
    pair: u32,
    q: u32,
    side: u32,
    counts: &mut [usize],
) -> i32
    ensures { SegmentTold depth pair q side window.old counts.old result window.new counts.new }
{
    put_counts(counts, 0, 0);
    if !Depth::is(depth) {
        return minus(Refusal::Depth);
    }
    if window.len() != 144 {
        return minus(Refusal::Length);
    }
    let mut l = lent::samples(window);
    let s = lent::edge(depth, pair, q, side);
    match filter_lone(&mut l, s) {
        Ok(f) => {
            lent::put_samples(window, &l);
            put_counts(counts, f.stored, f.changed);
            count(f.width)
        }
        Err(r) => minus(r),
    }
}
