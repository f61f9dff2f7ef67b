// The names of the settings, each as one number of its bytes, and where the numbers after a name go.
ghost use Rattle.std.specs.Prelude.{◌≡◌, ◌+◌, ◌*◌, ◌-◌, ◌≤◌};
ghost use Rattle.settings.specs.Kinds.{number_of, number_or_none};
ghost use Rattle.settings.specs.Names.{kind_of};
ghost use Rattle.settings.specs.Rules.{leaf_room, rule_of, first_places};

use crate::kinds::Kind;

// Where the numbers of a line go: the signed ones, the short ones, the steps, the flags, the offsets, or the short ones of a setting of one line.
#[derive(Clone, Copy, PartialEq, Eq)]
pub enum Destination {
    Numbers,
    Shorts,
    Steps,
    Flags,
    Offsets,
    Tiles,
}

// Which list the numbers go to, the first place there and the one after the last, and how many numbers a line has where that is settled.
#[derive(Clone, Copy)]
pub struct Rule {
    pub list: Destination,
    pub from: usize,
    pub end: usize,
    pub each: Option<usize>,
}

// The kind of a name. By numbers: `read_word` gives a word as one number of its bytes, and docs/ENTRIES.md says so of it.
pub fn kind(name: usize) -> Option<Kind>
    ensures { (number_or_none result ≡ kind_of name) × (number_or_none result ≤ 23) }
{
    match name {
        // settings
        8315180330343360371 => Some(Kind::Version),
        // qindex
        124697637578104 => Some(Kind::Qindex),
        // steps
        495874044019 => Some(Kind::Steps),
        // leaf
        1818583398 => Some(Kind::Leaf),
        // leaf_uv
        30510766488515958 => Some(Kind::LeafUv),
        // skip
        1936419184 => Some(Kind::Skip),
        // delta_y
        28259014154477433 => Some(Kind::DeltaY),
        // delta_uv
        7234307623546221942 => Some(Kind::DeltaUv),
        // cap_y
        426836516729 => Some(Kind::CapY),
        // cap_uv
        109270148281718 => Some(Kind::CapUv),
        // chroma
        109300247653729 => Some(Kind::Chroma),
        // ccso_y
        109278789590905 => Some(Kind::CcsoY),
        // ccso_u
        109278789590901 => Some(Kind::CcsoU),
        // ccso_v
        109278789590902 => Some(Kind::CcsoV),
        // flags_y
        28829613227728761 => Some(Kind::FlagsY),
        // flags_u
        28829613227728757 => Some(Kind::FlagsU),
        // flags_v
        28829613227728758 => Some(Kind::FlagsV),
        // offset_y
        8027216031643885433 => Some(Kind::OffsetY),
        // offset_u
        8027216031643885429 => Some(Kind::OffsetU),
        // offset_v
        8027216031643885430 => Some(Kind::OffsetV),
        // tiles_y
        32767011577880441 => Some(Kind::TilesY),
        // tiles_uv
        8388354963937391990 => Some(Kind::TilesUv),
        // keep
        1801807216 => Some(Kind::Keep),
        _ => None,
    }
}

// A rule by its four values.
fn put(list: Destination, from: usize, end: usize, each: Option<usize>) -> Rule
    ensures { result ≡ record { list = list; from = from; end = end; each = each } }
{
    Rule {
        list,
        from,
        end,
        each,
    }
}

// How many of n short numbers each sort of leaves has room for.
pub fn leaf_room(n: usize) -> usize
    ensures { (result ≡ leaf_room n) × (result ≤ 4194304) × (3 * result ≤ n - 22526) }
{
    if n < 22526 {
        return 0;
    }
    ((n - 22526) / 3).min(4194304)
}

// Where the numbers of a kind go, where there are n short ones.
fn rule_for(kind: Kind, n: usize) -> Rule
    ensures { result ≡ rule_of n (number_of kind) }
{
    let room = leaf_room(n);
    let chroma = 4096 + room;
    let skips = chroma + room;
    let tiles = skips + room;
    let chromatiles = tiles + 1023;
    let keeps = chromatiles + 1023;
    match kind {
        Kind::Version => put(Destination::Numbers, 0, 1, Some(1)),
        Kind::Qindex => put(Destination::Shorts, 0, 4096, None),
        Kind::Steps => put(Destination::Steps, 0, 352, None),
        Kind::Leaf => put(Destination::Shorts, 4096, chroma, Some(4)),
        Kind::LeafUv => put(Destination::Shorts, chroma, skips, Some(4)),
        Kind::Skip => put(Destination::Shorts, skips, tiles, Some(4)),
        Kind::DeltaY => put(Destination::Numbers, 1, 2, Some(1)),
        Kind::DeltaUv => put(Destination::Numbers, 2, 3, Some(1)),
        Kind::CapY => put(Destination::Numbers, 3, 5, Some(2)),
        Kind::CapUv => put(Destination::Numbers, 5, 7, Some(2)),
        Kind::Chroma => put(Destination::Numbers, 7, 8, Some(1)),
        Kind::CcsoY => put(Destination::Numbers, 16, 27, Some(11)),
        Kind::CcsoU => put(Destination::Numbers, 32, 43, Some(11)),
        Kind::CcsoV => put(Destination::Numbers, 48, 59, Some(11)),
        Kind::FlagsY => put(Destination::Flags, 0, 4096, None),
        Kind::FlagsU => put(Destination::Flags, 4096, 8192, None),
        Kind::FlagsV => put(Destination::Flags, 8192, 12288, None),
        Kind::OffsetY => put(Destination::Offsets, 0, 128, None),
        Kind::OffsetU => put(Destination::Offsets, 128, 256, None),
        Kind::OffsetV => put(Destination::Offsets, 256, 384, None),
        Kind::TilesY => put(Destination::Tiles, tiles, chromatiles, None),
        Kind::TilesUv => put(Destination::Tiles, chromatiles, keeps, None),
        Kind::Keep => put(Destination::Shorts, keeps, keeps + 16384, Some(4)),
    }
}

// The same of a kind or none, which has no room.
pub fn rule_of(kind: Option<Kind>, n: usize) -> Rule
    ensures { result ≡ rule_of n (number_or_none kind) }
{
    match kind {
        Some(kind) => rule_for(kind, n),
        None => put(Destination::Numbers, 0, 0, None),
    }
}

// The first place of each kind, where there are n short numbers; as numbers are read it moves to the place after the last one.
pub fn first_places(n: usize) -> [usize; 24]
    ensures { result ≡ first_places n }
{
    let mut places: [usize; 24] = [0; 24];
    for k in 0..24 {
        let rule = rule_of(Kind::try_from(k).ok(), n);
        places[k] = rule.from;
    }
    places
}
