// A TU grid from leaf records for C: its answer as a number, with the place of a refusal.
ghost use Rattle.rules.specs.TuGrid.{marks};
ghost use Rattle.by_list.specs.Grids.{GridTold};
ghost use Rattle.leaves.specs.Records.{flat};

use by_list::tx_records::{read, tell};
use leaves::records::Leaf;
use leaves::tx_grid::build_tx_grid;

// 0, or minus the refusal number with its place in the first entry of `place`.
#[unsafe(no_mangle)]
pub extern "C" fn bihargesh_tx_grid_leaves(
    leaves: &[Leaf],
    skips: &[Leaf],
    vedge: &mut [u8],
    hedge: &mut [u8],
    sqw: &mut [u8],
    sqh: &mut [u8],
    keep: &mut [u8],
    settings: &[i32],
    place: &mut [usize],
) -> i32
    ensures { GridTold
        settings.now
        (flat leaves.now)
        (flat skips.now)
        (marks vedge.old hedge.old sqw.old sqh.old)
        keep.old
        place.old
        result
        (marks vedge.new hedge.new sqw.new sqh.new)
        keep.new
        place.new }
{
    let s = read(settings);
    let a = build_tx_grid(leaves, skips, vedge, hedge, sqw, sqh, keep, s);
    tell(a, settings.len(), place)
}
