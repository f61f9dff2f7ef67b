// The planes of a frame whose grids are built: the late checks, the planes run where they accept.
ghost use Rattle.std.specs.Prelude.{◌≡◌, true, false, length};
ghost use Rattle.rules.specs.Plane.{keeping};
ghost use Rattle.rules.specs.Frame.{planes, grids, chroma_on};
ghost use Rattle.frame.specs.Fit.{Gridded, Stepped};
ghost use Rattle.frame.specs.Stated.{Finished};

use frame_planes::late::late;
use frame_planes::run::run_planes;
use rules::counts::Counts;
use rules::refusals::Refusal;
use rules::settings::Frame;

// Filters the planes, in document 01's order or in the plain one, and tells how many samples that stored and changed; or refuses them, and tells of none.
pub fn filter(
    y: &mut [u16],
    u: &mut [u16],
    v: &mut [u16],
    lv: &[u8],
    lh: &[u8],
    lw: &[u8],
    lt: &[u8],
    lq: &[u16],
    ltiles: &[u16],
    lkeep: &[u8],
    cv: &[u8],
    ch: &[u8],
    cw: &[u8],
    ct: &[u8],
    cq: &[u16],
    ctiles: &[u16],
    ckeep: &[u8],
    steps: &[u32],
    f: Frame,
    plain: bool,
) -> Result<Counts, Refusal>
    requires stepped { Stepped f false steps.now × Gridded f false (keeping lv.now lh.now lw.now lt.now lq.now ltiles.now lkeep.now) (length y.old) }
    requires stepped_2 { chroma_on f ≡ true → Stepped f true steps.now
        × Gridded f true (keeping cv.now ch.now cw.now ct.now cq.now ctiles.now ckeep.now) (length u.old)
        × Gridded f true (keeping cv.now ch.now cw.now ct.now cq.now ctiles.now ckeep.now) (length v.old) }
    ensures { Finished f
        steps.now
        (grids
        (keeping lv.now lh.now lw.now lt.now lq.now ltiles.now lkeep.now)
        (keeping cv.now ch.now cw.now ct.now cq.now ctiles.now ckeep.now))
        (planes y.old u.old v.old)
        result
        (planes y.new u.new v.new) }
{
    late(y, u, v, lv, lh, lw, lt, ltiles, cv, ch, cw, ct, ctiles, f)?;
    Ok(run_planes(
        y, u, v, lv, lh, lw, lt, lq, ltiles, lkeep, cv, ch, cw, ct, cq, ctiles, ckeep, steps, f,
        plain,
    ))
}
