// Document 01's checks of a frame before its grids are built, in their order.
ghost use Rattle.std.specs.Prelude.{◌≡◌, List, ℕ, length};
ghost use Rattle.rules.specs.Frame.{given, frame_shape, frame_given, frame_early};
ghost use Rattle.frame_checks.specs.Settings.{Sized};

use super::deltas::frame_settings;
use super::keep::frame_keep;
use super::leaves::frame_leaves;
use super::list_lengths::frame_lengths;
use super::sizes::frame_sizes;
use super::starts::frame_tiles;
use rules::depth::Depth;
use rules::lent::FrameLengths;
use rules::refusals::Refusal;
use rules::settings::Frame;
use thresholds::tests::steps_check;

// Order 1, 2, 3: what the settings and the lengths of the lists decide.
pub fn frame_shape(f: Frame, n: FrameLengths) -> Result<(), Refusal>
    ensures { result ≡ frame_shape f n }
{
    if !Depth::is(f.depth) {
        return Err(Refusal::Depth);
    }
    frame_sizes(f)?;
    frame_lengths(f, n)
}

// Order 4, 5, 9, whatever the superblocks' entries.
fn frame_given(
    steps: &[u32],
    leaves: &[u16],
    chromaleaves: &[u16],
    skips: &[u16],
    tiles: &[u16],
    chromatiles: &[u16],
    f: Frame,
) -> Result<(), Refusal>
    requires { Sized f }
    ensures { (q : List ℕ) → result ≡ frame_given f tiles.now chromatiles.now (given steps.now q leaves.now chromaleaves.now skips.now) }
{
    steps_check(steps)?;
    frame_settings(f)?;
    frame_tiles(tiles, chromatiles, f)?;
    frame_leaves(leaves, chromaleaves, skips)
}

// Order 1, 2, 3, 4, 5, 9, 6, for keep marks as long as n has them.
pub fn frame_early(
    steps: &[u32],
    leaves: &[u16],
    chromaleaves: &[u16],
    skips: &[u16],
    tiles: &[u16],
    chromatiles: &[u16],
    keep: &[u8],
    chromakeep: &[u8],
    f: Frame,
    n: FrameLengths,
) -> Result<(), Refusal>
    requires { (n.luma.keep ≡ length keep.now) × (n.chroma.keep ≡ length chromakeep.now) }
    ensures { (q : List ℕ) → result
        ≡ frame_early f n tiles.now chromatiles.now keep.now chromakeep.now (given steps.now q leaves.now chromaleaves.now skips.now) }
{
    frame_shape(f, n)?;
    frame_given(steps, leaves, chromaleaves, skips, tiles, chromatiles, f)?;
    frame_keep(keep, chromakeep, f)
}
