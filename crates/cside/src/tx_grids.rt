// A TU grid for C: its answer as a number, with the place of a refusal.
ghost use Rattle.rules.specs.TuGrid.{marks};
ghost use Rattle.by_list.specs.Grids.{GridTold};

use answers::told;
use grid::tx_grid::build_tx_grid;
use numbers::tu_grid_of;
use rules::refusals::Refusal;

// 0, or minus the refusal number with its place in the first entry of `place`.
#[unsafe(no_mangle)]
pub extern "C" fn bihargesh_tx_grid(
    leaves: &[u16],
    skips: &[u16],
    vedge: &mut [u8],
    hedge: &mut [u8],
    sqw: &mut [u8],
    sqh: &mut [u8],
    keep: &mut [u8],
    settings: &[i32],
    place: &mut [usize],
) -> i32
    ensures { GridTold
        settings.now
        leaves.now
        skips.now
        (marks vedge.old hedge.old sqw.old sqh.old)
        keep.old
        place.old
        result
        (marks vedge.new hedge.new sqw.new sqh.new)
        keep.new
        place.new }
{
    if settings.len() < 6 {
        return told(Err(Refusal::Length), place);
    }
    let s = tu_grid_of(settings);
    let a = build_tx_grid(leaves, skips, vedge, hedge, sqw, sqh, keep, s);
    told(a, place)
}
