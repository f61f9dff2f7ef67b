// A frame's planes filtered by their grids, and how many samples that stored and changed.
ghost use Rattle.std.specs.Prelude.{◌≡◌, true, false};
ghost use Rattle.rules.specs.Plane.{keeping};
ghost use Rattle.rules.specs.Frame.{planes, grids, chroma_on};
ghost use Rattle.frame_checks.specs.Settings.{kind_on};
ghost use Rattle.frame_planes.specs.Ran.{Runnable, PlaneRun, FrameRun};

use frame_checks::parts::{kind_on, plane_of};
use plain::deblock_plane_plain;
use plane::run_plane;
use rules::counts::Counts;
use rules::settings::Frame;

// Runs one plane where it is filtered, in document 01's order or in the plain one.
fn run(
    plane: &mut [u16],
    vedge: &[u8],
    hedge: &[u8],
    sqw: &[u8],
    sqh: &[u8],
    qindex: &[u16],
    tiles: &[u16],
    keep: &[u8],
    steps: &[u32],
    f: Frame,
    chroma: bool,
    plain: bool,
) -> Counts
    requires { kind_on f chroma ≡ true → Runnable f chroma steps.now (keeping vedge.now hedge.now sqw.now sqh.now qindex.now tiles.now keep.now) plane.old }
    ensures { PlaneRun f chroma steps.now (keeping vedge.now hedge.now sqw.now sqh.now qindex.now tiles.now keep.now) plane.old result plane.new }
{
    if !kind_on(f, chroma) {
        return Counts {
            stored: 0,
            changed: 0,
        };
    }
    let s = plane_of(f, chroma);
    if plain {
        let told = deblock_plane_plain(
            plane, vedge, hedge, sqw, sqh, qindex, tiles, keep, steps, s,
        ).unwrap();
        return Counts {
            stored: told.stored,
            changed: told.changed,
        };
    }
    let done = run_plane(plane, vedge, hedge, sqw, sqh, qindex, tiles, keep, steps, s);
    Counts {
        stored: done.stored,
        changed: done.changed,
    }
}

// Luma, U, V in that order, and their counts added.
pub fn run_planes(
    y: &mut [u16],
    u: &mut [u16],
    v: &mut [u16],
    lv: &[u8],
    lh: &[u8],
    lw: &[u8],
    lt: &[u8],
    lq: &[u16],
    ltiles: &[u16],
    lkeep: &[u8],
    cv: &[u8],
    ch: &[u8],
    cw: &[u8],
    ct: &[u8],
    cq: &[u16],
    ctiles: &[u16],
    ckeep: &[u8],
    steps: &[u32],
    f: Frame,
    plain: bool,
) -> Counts
    requires runnable { Runnable f false steps.now (keeping lv.now lh.now lw.now lt.now lq.now ltiles.now lkeep.now) y.old }
    requires runnable_2 { chroma_on f ≡ true → Runnable f true steps.now (keeping cv.now ch.now cw.now ct.now cq.now ctiles.now ckeep.now) u.old × Runnable f true steps.now (keeping cv.now ch.now cw.now ct.now cq.now ctiles.now ckeep.now) v.old }
    ensures { FrameRun f
        steps.now
        (grids
        (keeping lv.now lh.now lw.now lt.now lq.now ltiles.now lkeep.now)
        (keeping cv.now ch.now cw.now ct.now cq.now ctiles.now ckeep.now))
        (planes y.old u.old v.old)
        result
        (planes y.new u.new v.new) }
{
    let of_y = run(y, lv, lh, lw, lt, lq, ltiles, lkeep, steps, f, false, plain);
    let of_u = run(u, cv, ch, cw, ct, cq, ctiles, ckeep, steps, f, true, plain);
    let of_v = run(v, cv, ch, cw, ct, cq, ctiles, ckeep, steps, f, true, plain);
    Counts {
        stored: of_y.stored + of_u.stored + of_v.stored,
        changed: of_y.changed + of_u.changed + of_v.changed,
    }
}
