// Document 01, refusal 9 of a frame: luma's, chroma's, then skip leaves.
ghost use Rattle.std.specs.Prelude.{◌≡◌, true, false};
ghost use Rattle.rules.specs.Refusals.{or_else, found};
ghost use Rattle.rules.specs.TuGrid.{bad_leaf};
ghost use Rattle.rules.specs.declared.refusals.Refusal.TheVariants.{Leaf};

use rules::refusals::Refusal;
use tiles::leaf::bad_leaf;

// One list's refusal 9.
fn list_leaves(leaves: &[u16], skip: bool) -> Result<(), Refusal>
    ensures { result ≡ found (bad_leaf skip leaves.now) Leaf }
{
    match bad_leaf(leaves, skip) {
        Some(k) => Err(Refusal::Leaf(k)),
        None => Ok(()),
    }
}

// Refusal 9.
pub fn frame_leaves(leaves: &[u16], chromaleaves: &[u16], skips: &[u16]) -> Result<(), Refusal>
    ensures { result ≡ or_else (found (bad_leaf false leaves.now) Leaf) (or_else (found (bad_leaf false chromaleaves.now) Leaf) (found (bad_leaf true skips.now) Leaf)) }
{
    list_leaves(leaves, false)?;
    list_leaves(chromaleaves, false)?;
    list_leaves(skips, true)
}
