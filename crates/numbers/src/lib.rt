// Settings as C lends them: a list of numbers, in the order of the settings' fields.
#![tactic(auto)]

ghost use Rattle.std.specs.Prelude.{◌≡◌, ◌≤◌, ◌<◌, eqb, length};
ghost use Rattle.numbers.specs.Settings.{number_at, count_of, is_count, count_at, plane_of, replay_settings, tu_grid_of, qindex_grid_of, rectangle_of, offsets_of};

use rules::settings::{Ccso, Keep, Plane, QindexGrid, Replay, TuGrid};

// Number k of a list.
pub fn number(list: &[i32], k: usize) -> i32
    requires { k < length list.now }
    ensures { result ≡ number_at list.now k }
{
    list[k]
}

// A count that is not negative, or one that no range holds.
fn from_zero(v: i32) -> u32
    ensures { result ≡ count_of v }
{
    u32::try_from(v).unwrap_or(u32::MAX)
}

// Whether number k of a list is a count: one that is not negative.
pub fn is_count(list: &[i32], k: usize) -> bool
    requires { k < length list.now }
    ensures { result ≡ is_count (number_at list.now k) }
{
    0 <= number(list, k)
}

// Count k of a list.
pub fn count(list: &[i32], k: usize) -> u32
    requires { k < length list.now }
    ensures { result ≡ count_at list.now k }
{
    from_zero(number(list, k))
}

// The same as a size.
pub fn size(list: &[i32], k: usize) -> usize
    requires { k < length list.now }
    ensures { result ≡ count_at list.now k }
{
    count(list, k) as usize
}

// Whether count k of a list is 1.
pub fn flag(list: &[i32], k: usize) -> bool
    requires { k < length list.now }
    ensures { result ≡ eqb (count_at list.now k) 1 }
{
    count(list, k) == 1
}

// A plane's settings. A function and no TryFrom, here and below: that the list is long enough is a `requires`, which callers have tested of the list as lent.
pub fn plane_of(list: &[i32]) -> Plane
    requires { 11 ≤ length list.now }
    ensures { result ≡ plane_of list.now }
{
    Plane {
        cols: size(list, 0),
        rows: size(list, 1),
        stride: size(list, 2),
        width: size(list, 3),
        height: size(list, 4),
        sbw: size(list, 5),
        sbh: size(list, 6),
        chroma: flag(list, 7),
        depth: count(list, 8),
        deltaq: number(list, 9),
        deltaside: number(list, 10),
    }
}

// Settings of a plane on which a record is run.
pub fn replay_of(list: &[i32]) -> Replay
    requires { 4 ≤ length list.now }
    ensures { result ≡ replay_settings list.now }
{
    Replay {
        cols: size(list, 0),
        rows: size(list, 1),
        stride: size(list, 2),
        depth: count(list, 3),
    }
}

// A TU grid's settings.
pub fn tu_grid_of(list: &[i32]) -> TuGrid
    requires { 6 ≤ length list.now }
    ensures { result ≡ tu_grid_of list.now }
{
    TuGrid {
        cols: size(list, 0),
        rows: size(list, 1),
        ssx: size(list, 2),
        ssy: size(list, 3),
        capw: size(list, 4),
        caph: size(list, 5),
    }
}

// A qindex grid's settings.
pub fn qindex_grid_of(list: &[i32]) -> QindexGrid
    requires { 5 ≤ length list.now }
    ensures { result ≡ qindex_grid_of list.now }
{
    QindexGrid {
        cols: size(list, 0),
        rows: size(list, 1),
        ssx: size(list, 2),
        ssy: size(list, 3),
        sbcols: size(list, 4),
    }
}

// Settings of keep marks over a rectangle.
pub fn rectangle_of(list: &[i32]) -> Keep
    requires { 6 ≤ length list.now }
    ensures { result ≡ rectangle_of list.now }
{
    Keep {
        cols: size(list, 0),
        rows: size(list, 1),
        row: size(list, 2),
        col: size(list, 3),
        h: size(list, 4),
        w: size(list, 5),
    }
}

// CCSO's settings.
pub fn offsets_of(list: &[i32]) -> Ccso
    requires { 16 ≤ length list.now }
    ensures { result ≡ offsets_of list.now }
{
    Ccso {
        width: size(list, 0),
        height: size(list, 1),
        ssx: size(list, 2),
        ssy: size(list, 3),
        depth: count(list, 4),
        scale: count(list, 5),
        lo: number(list, 6),
        hi: number(list, 7),
        below: count(list, 8),
        within: count(list, 9),
        above: count(list, 10),
        dx0: number(list, 11),
        dy0: number(list, 12),
        dx1: number(list, 13),
        dy1: number(list, 14),
        bandlog: count(list, 15),
    }
}
