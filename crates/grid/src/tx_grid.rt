// The TU grid and its entry: the checks in document 01's order, then four lists that start at 0, the leaves, and the skip leaves over them; the entry alone clears the keep marks.
ghost use Rattle.std.specs.Prelude.{◌≡◌, true, false, length};
ghost use Rattle.rules.specs.Refusals.{or_else, found};
ghost use Rattle.rules.specs.TuGrid.{marks, bad_leaf, tx_grid_of};
ghost use Rattle.rules.specs.declared.refusals.Refusal.TheVariants.{Leaf};
ghost use Rattle.tiles.specs.Fit.{Cut, AllGood};
ghost use Rattle.grid.specs.Fit.{GridFits};
ghost use Rattle.grid.specs.Stated.{Stated};

use super::paint::{blank, paint_lists};
use super::start::start;
use rules::refusals::Refusal;
use rules::settings::TuGrid;
use tiles::leaf::bad_leaf;
use tiles::tests::leaves_fours;

// The grid of settings and leaves that the checks have passed.
pub fn tx_grid(
    ls: &[u16],
    skips: &[u16],
    vedge: &mut [u8],
    hedge: &mut [u8],
    sqw: &mut [u8],
    sqh: &mut [u8],
    s: TuGrid,
)
    requires grid_fits { GridFits s (length vedge.old) (length hedge.old) (length sqw.old) (length sqh.old) }
    requires cut { Cut s }
    requires all_good { AllGood ls.now }
    requires all_good_2 { AllGood skips.now }
    ensures { marks vedge.new hedge.new sqw.new sqh.new ≡ tx_grid_of s ls.now skips.now (marks vedge.old hedge.old sqw.old sqh.old) }
{
    blank(vedge, hedge, sqw, sqh, s.rows * s.cols);
    paint_lists(vedge, hedge, sqw, sqh, ls, skips, s);
}

// Refusal 9 of a list of leaves.
fn list_ok(ls: &[u16], skip: bool) -> Result<(), Refusal>
    ensures { result ≡ found (bad_leaf skip ls.now) Leaf }
{
    match bad_leaf(ls, skip) {
        Some(k) => Err(Refusal::Leaf(k)),
        None => Ok(()),
    }
}

// Refusal 9 of the leaves, and then of the skip leaves.
fn leaves_ok(ls: &[u16], skips: &[u16]) -> Result<(), Refusal>
    ensures { result ≡ or_else (found (bad_leaf false ls.now) Leaf) (found (bad_leaf true skips.now) Leaf) }
{
    list_ok(ls, false)?;
    list_ok(skips, true)
}

// The TU grid of any settings and lists, with no cell kept, or why there is none.
pub fn build_tx_grid(
    ls: &[u16],
    skips: &[u16],
    vedge: &mut [u8],
    hedge: &mut [u8],
    sqw: &mut [u8],
    sqh: &mut [u8],
    keep: &mut [u8],
    s: TuGrid,
) -> Result<(), Refusal>
    ensures { Stated s ls.now skips.now (marks vedge.old hedge.old sqw.old sqh.old) keep.old
        result (marks vedge.new hedge.new sqw.new sqh.new) keep.new }
{
    let fours = leaves_fours(ls.len(), skips.len());
    let nine = leaves_ok(ls, skips);
    start(vedge, hedge, sqw, sqh, keep, s, fours, nine)?;
    paint_lists(vedge, hedge, sqw, sqh, ls, skips, s);
    Ok(())
}
