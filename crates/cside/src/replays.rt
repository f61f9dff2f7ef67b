// A record that is run again, for C: its answer as a number, with the place of a refusal and both counts.
ghost use Rattle.by_list.specs.Planes.{ReplayTold};

use answers::{told_counts, told_refusal};
use numbers::replay_of;
use replay::replay_plane;
use rules::refusals::Refusal;

// 0, or minus the refusal number with its place in the first entry of `place`; stored and changed samples in `counts`.
#[unsafe(no_mangle)]
pub extern "C" fn bihargesh_replay(
    plane: &mut [u16],
    bytes: &[u8],
    keep: &[u8],
    settings: &[i32],
    place: &mut [usize],
    counts: &mut [usize],
) -> i32
    ensures { ReplayTold settings.now bytes.now keep.now plane.old place.old counts.old result plane.new place.new counts.new }
{
    if settings.len() < 4 {
        return told_refusal(Refusal::Length, place, counts);
    }
    let s = replay_of(settings);
    let a = replay_plane(plane, bytes, keep, s);
    told_counts(a, place, counts)
}
