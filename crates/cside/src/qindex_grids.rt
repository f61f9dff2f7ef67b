// A qindex grid for C: its answer as a number, with the place of a refusal.
ghost use Rattle.rules.specs.QindexGrid.{q_grid_check, q_grid_of};
ghost use Rattle.answers.specs.Told.{listed, Reported};
ghost use Rattle.numbers.specs.Settings.{qindex_grid_of};

use answers::told;
use numbers::qindex_grid_of;
use qindex::qindex_grid::build_qindex_grid;
use rules::refusals::Refusal;

// 0, or minus the refusal number with its place in the first entry of `place`.
#[unsafe(no_mangle)]
pub extern "C" fn bihargesh_qindex_grid(
    sbq: &[u16],
    qindex: &mut [u16],
    settings: &[i32],
    place: &mut [usize],
) -> i32
    ensures { Reported
        (listed 5 settings.now (q_grid_check (qindex_grid_of settings.now) sbq.now qindex.old))
        qindex.old
        (q_grid_of (qindex_grid_of settings.now) sbq.now qindex.old)
        place.old
        result
        qindex.new
        place.new }
{
    if settings.len() < 5 {
        return told(Err(Refusal::Length), place);
    }
    let s = qindex_grid_of(settings);
    let a = build_qindex_grid(sbq, qindex, s);
    told(a, place)
}
