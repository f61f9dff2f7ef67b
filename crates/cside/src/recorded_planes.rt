// A plane whose edges are recorded, for C: the record's bytes as the answer, or a refusal's number with its place, and both counts.
ghost use Rattle.rules.specs.Plane.{keeping};
ghost use Rattle.by_list.specs.Planes.{RecordTold};

use answers::{told_record, told_refusal};
use by_list::planes::list_check;
use numbers::plane_of;
use recorded::record_plane;

// How many bytes the record takes, or minus the refusal number with its place in the first entry of `place`; stored and changed samples in `counts`.
#[unsafe(no_mangle)]
pub extern "C" fn bihargesh_record_plane(
    plane: &mut [u16],
    buffer: &mut [u8],
    vedge: &[u8],
    hedge: &[u8],
    sqw: &[u8],
    sqh: &[u8],
    qindex: &[u16],
    tiles: &[u16],
    keep: &[u8],
    steps: &[u32],
    settings: &[i32],
    place: &mut [usize],
    counts: &mut [usize],
) -> i32
    ensures { RecordTold
        settings.now
        steps.now
        (keeping vedge.now hedge.now sqw.now sqh.now qindex.now tiles.now keep.now)
        plane.old
        buffer.old
        place.old
        counts.old
        result
        plane.new
        buffer.new
        place.new
        counts.new }
{
    let lists = list_check(settings);
    if let Err(r) = lists {
        return told_refusal(r, place, counts);
    }
    let s = plane_of(settings);
    let a = record_plane(
        plane, buffer, vedge, hedge, sqw, sqh, qindex, tiles, keep, steps, s,
    );
    told_record(a, place, counts)
}
