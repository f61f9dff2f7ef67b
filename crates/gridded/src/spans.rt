// Where the lists of luma or of chroma stand among the settings' short numbers.
ghost use Rattle.std.specs.Prelude.{◌≡◌, ◌≤◌};
ghost use Rattle.by_settings.specs.Lists.{ListsWithin};
ghost use Rattle.gridded.specs.Spans.{leaves_from, leaves_end, tiles_from, tiles_end};

use by_settings::lists::Lists;

// Where a list of short numbers begins and ends.
#[derive(Clone, Copy)]
pub struct Span {
    pub from: usize,
    pub end: usize,
}

// The leaves of luma or of chroma, among n short numbers.
pub fn leaves_of(at: Lists, chroma: bool, n: usize) -> Span
    requires { ListsWithin at n }
    ensures from_le_end { (result.from ≤ result.end) × (result.end ≤ n) }
    ensures from_value { (result.from ≡ leaves_from at chroma) × (result.end ≡ leaves_end at chroma) }
{
    if chroma {
        return Span {
            from: at.chroma,
            end: at.chromaend,
        };
    }
    Span {
        from: at.leaves,
        end: at.leavesend,
    }
}

// The tile starts of luma or of chroma, among n short numbers.
pub fn tiles_of(at: Lists, chroma: bool, n: usize) -> Span
    requires { ListsWithin at n }
    ensures from_le_end { (result.from ≤ result.end) × (result.end ≤ n) }
    ensures from_value { (result.from ≡ tiles_from at chroma) × (result.end ≡ tiles_end at chroma) }
{
    if chroma {
        return Span {
            from: at.chromatiles,
            end: at.chromatilesend,
        };
    }
    Span {
        from: at.tiles,
        end: at.tilesend,
    }
}
