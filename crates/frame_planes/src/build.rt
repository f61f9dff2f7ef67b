// The grid of a frame's luma or chroma: marks and size indices from the leaves, qindex from the superblocks.
ghost use Rattle.std.specs.Prelude.{◌≡◌, true, List, ℕ, length};
ghost use Rattle.laws.specs.Choose.{pick};
ghost use Rattle.rules.specs.Plane.{keeping};
ghost use Rattle.rules.specs.Frame.{built_grid};
ghost use Rattle.frame_checks.specs.Settings.{kind_on, tu_of, q_of};
ghost use Rattle.frame_planes.specs.Fit.{Buildable};

use frame_checks::parts::{kind_on, q_of, tu_of};
use grid::tx_grid::tx_grid;
use qindex::qindex_grid::qindex_grid;
use rules::settings::Frame;

// Builds the grid where its planes are filtered, whatever its tile starts and keep marks, neither of which it is lent.
pub fn build(
    vedge: &mut [u8],
    hedge: &mut [u8],
    sqw: &mut [u8],
    sqh: &mut [u8],
    qindex: &mut [u16],
    leaves: &[u16],
    skips: &[u16],
    sbq: &[u16],
    f: Frame,
    chroma: bool,
)
    requires { kind_on f chroma ≡ true → Buildable f chroma leaves.now skips.now (length sbq.now) (length vedge.old) (length hedge.old) (length sqw.old) (length sqh.old) (length qindex.old) }
    ensures { (ts ks : List ℕ) → keeping vedge.new hedge.new sqw.new sqh.new qindex.new ts ks
        ≡ pick
        (kind_on f chroma)
        (built_grid (tu_of f chroma) (q_of f chroma) leaves.now skips.now sbq.now (keeping vedge.old hedge.old sqw.old sqh.old qindex.old ts ks))
        (keeping vedge.old hedge.old sqw.old sqh.old qindex.old ts ks) }
{
    if !kind_on(f, chroma) {
        return;
    }
    tx_grid(leaves, skips, vedge, hedge, sqw, sqh, tu_of(f, chroma));
    qindex_grid(sbq, qindex, q_of(f, chroma));
}
