// The frame by the settings' own lists: deblocked, and where it was refused.
ghost use Rattle.std.specs.Prelude.{length};
ghost use Rattle.rules.specs.Frame.{planes, given};
ghost use Rattle.frame_by_settings.specs.Deblocked.{starts, keeps};
ghost use Rattle.frame_by_settings.specs.Framed.{ListsLong, given_asked, starts_asked, DeblockedAt};

use crate::deblocking::deblock;
use crate::places::place_of;
use by_settings::kinds::STEPS;
use by_settings::lists::{lists_of, steps_of};
use by_settings::places::Place;
use rules::counts::Counts;
use rules::refusals::Refusal;
use rules::settings::Frame;

// Why a frame is refused, and where.
#[derive(Clone, Copy)]
pub struct Refused {
    pub refusal: Refusal,
    pub place: Place,
}

// Deblocks a frame, in document 01's order or in the plain one, or says where it was refused and leaves its planes as lent.
fn deblock_given(
    y: &mut [u16],
    u: &mut [u16],
    v: &mut [u16],
    steps: &[u32],
    sbq: &[u16],
    leaves: &[u16],
    chromaleaves: &[u16],
    skips: &[u16],
    tiles: &[u16],
    chromatiles: &[u16],
    keep: &[u8],
    chromakeep: &[u8],
    f: Frame,
    plain: bool,
) -> Result<Counts, Refused>
    ensures { DeblockedAt f
        (given steps.now sbq.now leaves.now chromaleaves.now skips.now)
        (starts tiles.now chromatiles.now)
        (keeps keep.now chromakeep.now)
        (planes y.old u.old v.old)
        result
        (planes y.new u.new v.new) }
{
    let a = deblock(
        y,
        u,
        v,
        steps,
        sbq,
        leaves,
        chromaleaves,
        skips,
        tiles,
        chromatiles,
        keep,
        chromakeep,
        f,
        plain,
    );
    match a {
        Ok(counts) => Ok(counts),
        Err(refusal) => Err(Refused {
            refusal,
            place: place_of(refusal, y, u, sbq, leaves, chromaleaves, skips, tiles, f),
        }),
    }
}

// The same by the lists among the settings' numbers, and the keep marks that they ask for.
pub fn deblock_asked(
    y: &mut [u16],
    u: &mut [u16],
    v: &mut [u16],
    shorts: &[u16],
    steps: &[u32],
    keep: &[u8],
    chromakeep: &[u8],
    places: &[usize],
    f: Frame,
    plain: bool,
) -> Result<Counts, Refused>
    requires { ListsLong (length shorts.now) (length steps.now) (length places.now) }
    ensures { DeblockedAt f
        (given_asked shorts.now steps.now places.now)
        (starts_asked shorts.now places.now)
        (keeps keep.now chromakeep.now)
        (planes y.old u.old v.old)
        result
        (planes y.new u.new v.new) }
{
    let at = lists_of(places, shorts.len());
    let n = steps_of(places[STEPS]);
    let q = at.entries;
    let a = at.leaves;
    let b = at.leavesend;
    let c = at.chroma;
    let d = at.chromaend;
    let e = at.skips;
    let g = at.skipsend;
    let h = at.tiles;
    let i = at.tilesend;
    let j = at.chromatiles;
    let k = at.chromatilesend;
    deblock_given(
        y,
        u,
        v,
        &steps[0..n],
        &shorts[0..q],
        &shorts[a..b],
        &shorts[c..d],
        &shorts[e..g],
        &shorts[h..i],
        &shorts[j..k],
        keep,
        chromakeep,
        f,
        plain,
    )
}
