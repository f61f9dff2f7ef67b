// A whole frame for C: its answer as a number, with the place of a refusal and both counts.
ghost use Rattle.rules.specs.Plane.{keeping};
ghost use Rattle.rules.specs.Frame.{planes, grids, lent, given};
ghost use Rattle.by_list.specs.Frames.{FrameTold};

use answers::{told_counts, told_refusal};
use by_list::frames::{frame_of, list_check};
use frame::frame::deblock_frame;

// 0, or minus the refusal number with its place in the first entry of `place`; stored and changed samples in `counts`.
#[unsafe(no_mangle)]
pub extern "C" fn bihargesh_frame(
    y: &mut [u16],
    u: &mut [u16],
    v: &mut [u16],
    lv: &mut [u8],
    lh: &mut [u8],
    lw: &mut [u8],
    lt: &mut [u8],
    lq: &mut [u16],
    cv: &mut [u8],
    ch: &mut [u8],
    cw: &mut [u8],
    ct: &mut [u8],
    cq: &mut [u16],
    steps: &[u32],
    sbq: &[u16],
    leaves: &[u16],
    chromaleaves: &[u16],
    skips: &[u16],
    tiles: &[u16],
    chromatiles: &[u16],
    keep: &[u8],
    chromakeep: &[u8],
    settings: &[i32],
    place: &mut [usize],
    counts: &mut [usize],
) -> i32
    ensures { FrameTold
        settings.now
        (given steps.now sbq.now leaves.now chromaleaves.now skips.now)
        (lent
        (planes y.old u.old v.old)
        (grids
        (keeping lv.old lh.old lw.old lt.old lq.old tiles.now keep.now)
        (keeping cv.old ch.old cw.old ct.old cq.old chromatiles.now chromakeep.now)))
        place.old
        counts.old
        result
        (lent
        (planes y.new u.new v.new)
        (grids
        (keeping lv.new lh.new lw.new lt.new lq.new tiles.now keep.now)
        (keeping cv.new ch.new cw.new ct.new cq.new chromatiles.now chromakeep.now)))
        place.new
        counts.new }
{
    let lists = list_check(settings);
    if let Err(r) = lists {
        return told_refusal(r, place, counts);
    }
    let f = frame_of(settings);
    let a = deblock_frame(
        y,
        u,
        v,
        lv,
        lh,
        lw,
        lt,
        lq,
        cv,
        ch,
        cw,
        ct,
        cq,
        steps,
        sbq,
        leaves,
        chromaleaves,
        skips,
        tiles,
        chromatiles,
        keep,
        chromakeep,
        f,
        false,
    );
    told_counts(a, place, counts)
}
