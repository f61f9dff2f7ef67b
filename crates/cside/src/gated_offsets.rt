// The gated CCSO offsets for C: their answer as a number, with the place of a refusal.
ghost use Rattle.rules.specs.Ccso.{ccso_check, ccso_of};
ghost use Rattle.answers.specs.Told.{listed, Reported};
ghost use Rattle.numbers.specs.Settings.{offsets_of};

use answers::told;
use ccso::apply::apply_edge_gated;
use numbers::offsets_of;
use rules::refusals::Refusal;

// 0, or minus the refusal number with its place in the first entry of `place`.
#[unsafe(no_mangle)]
pub extern "C" fn bihargesh_ccso(
    luma: &[u16],
    target: &mut [u16],
    flags: &[u8],
    offsets: &[i8],
    settings: &[i32],
    place: &mut [usize],
) -> i32
    ensures { Reported
        (listed 16 settings.now (ccso_check (offsets_of settings.now) luma.now flags.now offsets.now target.old))
        target.old
        (ccso_of (offsets_of settings.now) luma.now flags.now offsets.now target.old)
        place.old
        result
        target.new
        place.new }
{
    if settings.len() < 16 {
        return told(Err(Refusal::Length), place);
    }
    let s = offsets_of(settings);
    let a = apply_edge_gated(luma, target, flags, offsets, s);
    told(a, place)
}
