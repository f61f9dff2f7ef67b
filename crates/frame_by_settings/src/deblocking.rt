// A frame deblocked over grids of its own, by lent tile starts and keep marks.
ghost use Rattle.std.specs.Prelude.{◌≡◌};
ghost use Rattle.rules.specs.Frame.{planes, given};
ghost use Rattle.frame_by_settings.specs.Deblocked.{zeros, starts, keeps, Deblocked};

use frame::frame::deblock_frame;
use rules::counts::Counts;
use rules::refusals::Refusal;
use rules::settings::Frame;

// How many cells the largest plane has.
const MOST_CELLS: usize = 1048576;

// Marks or size indices of the largest plane.
pub fn marks() -> [u8; MOST_CELLS]
    ensures { result ≡ zeros }
{
    [0; MOST_CELLS]
}

// Its qindex entries.
pub fn indices() -> [u16; MOST_CELLS]
    ensures { result ≡ zeros }
{
    [0; MOST_CELLS]
}

// Deblocks a frame, in document 01's order or in the plain one, and tells how many samples that stored and changed, or refuses and leaves its planes as lent.
pub fn deblock(
    y: &mut [u16],
    u: &mut [u16],
    v: &mut [u16],
    steps: &[u32],
    sbq: &[u16],
    leaves: &[u16],
    chromaleaves: &[u16],
    skips: &[u16],
    tiles: &[u16],
    chromatiles: &[u16],
    keep: &[u8],
    chromakeep: &[u8],
    f: Frame,
    plain: bool,
) -> Result<Counts, Refusal>
    ensures { Deblocked f
        (given steps.now sbq.now leaves.now chromaleaves.now skips.now)
        (starts tiles.now chromatiles.now)
        (keeps keep.now chromakeep.now)
        (planes y.old u.old v.old)
        result
        (planes y.new u.new v.new) }
{
    let mut lv = marks();
    let mut lh = marks();
    let mut lw = marks();
    let mut lt = marks();
    let mut lq = indices();
    let mut cv = marks();
    let mut ch = marks();
    let mut cw = marks();
    let mut ct = marks();
    let mut cq = indices();
    deblock_frame(
        y,
        u,
        v,
        &mut lv,
        &mut lh,
        &mut lw,
        &mut lt,
        &mut lq,
        &mut cv,
        &mut ch,
        &mut cw,
        &mut ct,
        &mut cq,
        steps,
        sbq,
        leaves,
        chromaleaves,
        skips,
        tiles,
        chromatiles,
        keep,
        chromakeep,
        f,
        plain,
    )
}
