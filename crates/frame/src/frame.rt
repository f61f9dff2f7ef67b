// A frame's entry: the lengths of its lists, the early checks, both grids built, and the planes filtered by them.
ghost use Rattle.std.specs.Prelude.{◌≡◌};
ghost use Rattle.rules.specs.Plane.{keeping};
ghost use Rattle.rules.specs.Frame.{planes, grids, lent, given};
ghost use Rattle.frame.specs.Fit.{lengths_by};
ghost use Rattle.frame.specs.Stated.{Stated};

use super::filter::filter;
use frame_checks::early::frame_early;
use frame_planes::build::build;
use rules::counts::Counts;
use rules::lent::{FrameLengths, GridLengths};
use rules::refusals::Refusal;
use rules::settings::Frame;

// How long a grid's lists are.
fn grid_lengths(
    vedge: usize,
    hedge: usize,
    sqw: usize,
    sqh: usize,
    qindex: usize,
    keep: usize,
) -> GridLengths
    ensures { result ≡ lengths_by vedge hedge sqw sqh qindex keep }
{
    GridLengths {
        vedge: vedge,
        hedge: hedge,
        sqw: sqw,
        sqh: sqh,
        qindex: qindex,
        keep: keep,
    }
}

// Filters a frame of any settings and lists, in document 01's order or in ticket 6's plain one, and tells how many samples that stored and changed, or says why it does not:
// answer, counts and every lent list are those of rules in either order; the keep marks are lent to be read alone.
pub fn deblock_frame(
    y: &mut [u16],
    u: &mut [u16],
    v: &mut [u16],
    lv: &mut [u8],
    lh: &mut [u8],
    lw: &mut [u8],
    lt: &mut [u8],
    lq: &mut [u16],
    cv: &mut [u8],
    ch: &mut [u8],
    cw: &mut [u8],
    ct: &mut [u8],
    cq: &mut [u16],
    steps: &[u32],
    sbq: &[u16],
    leaves: &[u16],
    chromaleaves: &[u16],
    skips: &[u16],
    tiles: &[u16],
    chromatiles: &[u16],
    keep: &[u8],
    chromakeep: &[u8],
    f: Frame,
    plain: bool,
) -> Result<Counts, Refusal>
    ensures { Stated f
        (given steps.now sbq.now leaves.now chromaleaves.now skips.now)
        (lent
        (planes y.old u.old v.old)
        (grids
        (keeping lv.old lh.old lw.old lt.old lq.old tiles.now keep.now)
        (keeping cv.old ch.old cw.old ct.old cq.old chromatiles.now chromakeep.now)))
        result
        (lent
        (planes y.new u.new v.new)
        (grids
        (keeping lv.new lh.new lw.new lt.new lq.new tiles.now keep.now)
        (keeping cv.new ch.new cw.new ct.new cq.new chromatiles.now chromakeep.now))) }
{
    let luma = grid_lengths(lv.len(), lh.len(), lw.len(), lt.len(), lq.len(), keep.len());
    let chroma = grid_lengths(
        cv.len(),
        ch.len(),
        cw.len(),
        ct.len(),
        cq.len(),
        chromakeep.len(),
    );
    let n = FrameLengths {
        y: y.len(),
        u: u.len(),
        v: v.len(),
        luma: luma,
        chroma: chroma,
        sbq: sbq.len(),
        leaves: leaves.len(),
        chromaleaves: chromaleaves.len(),
        skips: skips.len(),
    };
    frame_early(
        steps,
        leaves,
        chromaleaves,
        skips,
        tiles,
        chromatiles,
        keep,
        chromakeep,
        f,
        n,
    )?;
    build(lv, lh, lw, lt, lq, leaves, skips, sbq, f, false);
    build(cv, ch, cw, ct, cq, chromaleaves, skips, sbq, f, true);
    filter(
        y,
        u,
        v,
        lv,
        lh,
        lw,
        lt,
        lq,
        tiles,
        keep,
        cv,
        ch,
        cw,
        ct,
        cq,
        chromatiles,
        chromakeep,
        steps,
        f,
        plain,
    )
}
