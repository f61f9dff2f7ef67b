// The TU grid from lists of leaf records: the checks, then four lists and keep marks that start at 0, the leaves, and the skip leaves over them.
ghost use Rattle.rules.specs.TuGrid.{marks};
ghost use Rattle.grid.specs.Stated.{Stated};
ghost use Rattle.leaves.specs.Records.{flat};

use super::records::{Leaf, good_leaves, paint_leaves};
use super::start::start;
use rules::refusals::Refusal;
use rules::settings::TuGrid;

// The TU grid of any settings and lists, with no cell kept, or why there is none.
pub fn build_tx_grid(
    ls: &[Leaf],
    skips: &[Leaf],
    vedge: &mut [u8],
    hedge: &mut [u8],
    sqw: &mut [u8],
    sqh: &mut [u8],
    keep: &mut [u8],
    s: TuGrid,
) -> Result<(), Refusal>
    ensures { Stated s (flat ls.now) (flat skips.now) (marks vedge.old hedge.old sqw.old sqh.old) keep.old
        result (marks vedge.new hedge.new sqw.new sqh.new) keep.new }
{
    let good = good_leaves(ls, false);
    let sound = good_leaves(skips, true);
    start(
        vedge,
        hedge,
        sqw,
        sqh,
        keep,
        s,
        ls.len(),
        good,
        skips.len(),
        sound,
    )?;
    paint_leaves(vedge, hedge, sqw, sqh, ls, s, false);
    paint_leaves(vedge, hedge, sqw, sqh, skips, s, true);
    Ok(())
}
