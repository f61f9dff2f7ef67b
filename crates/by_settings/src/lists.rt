// The lists of the settings: qindex entries, luma's leaves, chroma's leaves, skip leaves, both planes' tile starts and the kept rectangles among the short numbers, and the steps.
ghost use Rattle.std.specs.Prelude.{◌≡◌, ◌≤◌, min, max, length};
ghost use Rattle.by_settings.specs.Rooms.{kinds, fewest_shorts, steps_room};
ghost use Rattle.by_settings.specs.Lists.{lists_asked, steps_asked, ListsWithin};

use crate::rooms;
use settings::kinds::Kind;
use settings::names::leaf_room;

// Where the lists of short numbers begin and end.
#[derive(Clone, Copy)]
pub struct Lists {
    pub entries: usize,
    pub leaves: usize,
    pub leavesend: usize,
    pub chroma: usize,
    pub chromaend: usize,
    pub skips: usize,
    pub skipsend: usize,
    pub tiles: usize,
    pub tilesend: usize,
    pub chromatiles: usize,
    pub chromatilesend: usize,
    pub keeps: usize,
    pub keepsend: usize,
}

// A place between two others.
pub fn limit(place: usize, from: usize, end: usize) -> usize
    ensures { result ≡ max from (min place end) }
{
    from.max(place.min(end))
}

// How many steps stand in the table: those given, or all of the published ones.
pub fn steps_of(n: usize) -> usize
    ensures { (result ≡ steps_asked n) × (result ≤ steps_room) }
{
    if n == 0 {
        rooms::STEPS
    } else {
        n.min(rooms::STEPS)
    }
}

// The lists of n short numbers by the places after their last ones. Chroma has luma's leaves where it has none of its own.
pub fn lists_of(places: &[usize], n: usize) -> Lists
    requires { (kinds ≤ length places.now) × (fewest_shorts ≤ n) }
    ensures { (result ≡ lists_asked n places.now) × ListsWithin result n }
{
    let room = leaf_room(n);
    let chroma = rooms::QINDEX + room;
    let skips = chroma + room;
    let l = limit(places[Kind::Leaf as usize], rooms::QINDEX, chroma);
    let c = limit(places[Kind::LeafUv as usize], chroma, skips);
    let tiles = skips + room;
    let chromatiles = tiles + rooms::TILES;
    let keeps = chromatiles + rooms::TILES;
    let s = limit(places[Kind::Skip as usize], skips, tiles);
    let t = limit(places[Kind::TilesY as usize], tiles, chromatiles);
    let u = limit(places[Kind::TilesUv as usize], chromatiles, keeps);
    let k = limit(places[Kind::Keep as usize], keeps, keeps + rooms::KEEPS);
    if c == chroma {
        return Lists {
            entries: rooms::QINDEX,
            leaves: rooms::QINDEX,
            leavesend: l,
            chroma: rooms::QINDEX,
            chromaend: l,
            skips,
            skipsend: s,
            tiles,
            tilesend: t,
            chromatiles,
            chromatilesend: u,
            keeps,
            keepsend: k,
        };
    }
    Lists {
        entries: rooms::QINDEX,
        leaves: rooms::QINDEX,
        leavesend: l,
        chroma,
        chromaend: c,
        skips,
        skipsend: s,
        tiles,
        tilesend: t,
        chromatiles,
        chromatilesend: u,
        keeps,
        keepsend: k,
    }
}
