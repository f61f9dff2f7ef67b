// A plane for C in the plain order: its answer as a number, with the place of a refusal and both counts.
ghost use Rattle.rules.specs.Plane.{keeping};
ghost use Rattle.by_list.specs.Planes.{PlaneTold};

use answers::{told_counts, told_refusal};
use by_list::planes::list_check;
use numbers::plane_of;
use plain::deblock_plane_plain;

// As `bihargesh_plane`: 0, or minus the refusal number with its place in the first entry of `place`; stored and changed samples in `counts`.
#[unsafe(no_mangle)]
pub extern "C" fn bihargesh_plane_plain(
    plane: &mut [u16],
    vedge: &[u8],
    hedge: &[u8],
    sqw: &[u8],
    sqh: &[u8],
    qindex: &[u16],
    tiles: &[u16],
    keep: &[u8],
    steps: &[u32],
    settings: &[i32],
    place: &mut [usize],
    counts: &mut [usize],
) -> i32
    ensures { PlaneTold
        settings.now
        steps.now
        (keeping vedge.now hedge.now sqw.now sqh.now qindex.now tiles.now keep.now)
        plane.old
        place.old
        counts.old
        result
        plane.new
        place.new
        counts.new }
{
    let lists = list_check(settings);
    if let Err(r) = lists {
        return told_refusal(r, place, counts);
    }
    let s = plane_of(settings);
    let a = deblock_plane_plain(plane, vedge, hedge, sqw, sqh, qindex, tiles, keep, steps, s);
    told_counts(a, place, counts)
}
