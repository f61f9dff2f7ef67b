// Document 01, refusal 3 of a frame: every list that it uses is long enough, and leaf lists have four numbers a leaf.
// Lengths travel by value, so that the checks take none of the lists that are written.
ghost use Rattle.std.specs.Prelude.{◌≡◌, [], ◌∷◌, ◌*◌, leb};
ghost use Rattle.laws.specs.Choose.{all};
ghost use Rattle.rules.specs.declared.refusals.Refusal.TheVariants.{Length};
ghost use Rattle.std.specs.declared.result.Result.TheVariants.{Ok};
ghost use Rattle.rules.specs.Refusals.{unless, only_if};
ghost use Rattle.rules.specs.TuGrid.{fours_ok};
ghost use Rattle.rules.specs.Frame.{superblocks, luma_plane, chroma_plane, chroma_on, frame_sizes, samples_long, grid_long, luma_long, chroma_long, given_long, frame_lengths};
ghost use Rattle.cell_edges.specs.Cells.{Sizes};
ghost use Rattle.frame_checks.specs.Settings.{Sized};

use super::parts::{chroma_on, plane_of};
use rules::lent::{FrameLengths, GridLengths};
use rules::refusals::Refusal;
use rules::settings::{Frame, Plane};
use tiles::tests::fours;

// A plane of n samples.
fn samples_long(s: Plane, n: usize) -> bool
    requires { Sizes s }
    ensures { result ≡ samples_long s n }
{
    4 * s.rows * s.stride <= n
}

// A grid of a plane's cells.
fn grid_long(s: Plane, g: GridLengths) -> bool
    requires { Sizes s }
    ensures { result ≡ grid_long s g }
{
    let cells = s.rows * s.cols;
    if g.vedge < cells {
        return false;
    }
    if g.hedge < cells {
        return false;
    }
    if g.sqw < cells {
        return false;
    }
    if g.sqh < cells {
        return false;
    }
    if g.qindex < cells {
        return false;
    }
    cells <= g.keep
}

fn luma_long(f: Frame, n: FrameLengths) -> bool
    requires { Sized f × Sizes (luma_plane f) }
    ensures { result ≡ luma_long f n }
{
    let s = plane_of(f, false);
    if !samples_long(s, n.y) {
        return false;
    }
    grid_long(s, n.luma)
}

fn chroma_long(f: Frame, n: FrameLengths) -> bool
    requires { Sized f × Sizes (chroma_plane f) }
    ensures { result ≡ chroma_long f n }
{
    let s = plane_of(f, true);
    if !samples_long(s, n.u) {
        return false;
    }
    if !samples_long(s, n.v) {
        return false;
    }
    grid_long(s, n.chroma)
}

// An entry for each superblock.
fn count_ok(f: Frame, count: usize) -> bool
    requires { Sized f }
    ensures { result ≡ leb (superblocks f.width * superblocks f.height) count }
{
    rounding::superblocks(f.width) * rounding::superblocks(f.height) <= count
}

// Four numbers a leaf.
fn leaves_long(leaves: usize, chromaleaves: usize, skips: usize) -> bool
    ensures { result ≡ all (fours_ok leaves ∷ fours_ok chromaleaves ∷ fours_ok skips ∷ []) }
{
    if !fours(leaves) {
        return false;
    }
    if !fours(chromaleaves) {
        return false;
    }
    fours(skips)
}

// The superblocks' list and the leaf lists.
fn given_long(f: Frame, n: FrameLengths) -> bool
    requires { Sized f }
    ensures { result ≡ given_long f n }
{
    if !count_ok(f, n.sbq) {
        return false;
    }
    leaves_long(n.leaves, n.chromaleaves, n.skips)
}

// Refusal 3 of chroma's lists, where they are used.
fn chroma_lengths(f: Frame, n: FrameLengths) -> Result<(), Refusal>
    requires { frame_sizes f ≡ Ok tt }
    ensures { result ≡ only_if (chroma_on f) (unless (chroma_long f n) Length) }
{
    if !chroma_on(f) {
        return Ok(());
    }
    if !chroma_long(f, n) {
        return Err(Refusal::Length);
    }
    Ok(())
}

// Refusal 3.
pub fn frame_lengths(f: Frame, n: FrameLengths) -> Result<(), Refusal>
    requires { frame_sizes f ≡ Ok tt }
    ensures { result ≡ frame_lengths f n }
{
    if !luma_long(f, n) {
        return Err(Refusal::Length);
    }
    chroma_lengths(f, n)?;
    if !given_long(f, n) {
        return Err(Refusal::Length);
    }
    Ok(())
}
