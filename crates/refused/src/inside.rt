// The leaves of the settings that begin outside the picture.
ghost use Rattle.std.specs.Prelude.{length, ◌≤◌};
ghost use Rattle.by_settings.specs.Rooms.{kinds, fewest_shorts};

use crate::say;
use by_settings::lists::lists_of;
use pictures::outside::outside;
use pictures::planes::Shape;
use settings::kinds::Kind;
use settings::lines::line_with;
use streams::say::at_line;
use system::files::Target;
use tiles::leaf::wide;

// Whether the leaves of a kind begin in the picture; else after the answer that names the first that does not.
fn list_inside(
    told: &Target,
    name: &[u8],
    text: &[u8],
    kind: Kind,
    leaves: &[u16],
    s: Shape,
) -> bool {
    let rows = s.rows / 4;
    let columns = s.stride / 4;
    let Some(k) = outside(leaves, rows, columns) else {
        return true;
    };
    let row = wide(leaves[4 * k]);
    let column = wide(leaves[4 * k + 1]);
    at_line(told, name, line_with(text, kind, 4 * k).unwrap_or(0));
    say::outside(told, kind, row, column, rows, columns);
    false
}

// Whether every leaf begins in the picture; else after the answer.
pub fn inside(
    told: &Target,
    name: &[u8],
    text: &[u8],
    shorts: &[u16],
    places: &[usize],
    s: Shape,
) -> bool
    requires { (fewest_shorts ≤ length shorts.now) × (kinds ≤ length places.now) }
{
    let at = lists_of(places, shorts.len());
    let a = at.leaves;
    let b = at.leavesend;
    let c = at.chroma;
    let d = at.chromaend;
    let e = at.skips;
    let g = at.skipsend;
    if !list_inside(told, name, text, Kind::Leaf, &shorts[a..b], s) {
        return false;
    }
    if !list_inside(told, name, text, Kind::LeafUv, &shorts[c..d], s) {
        return false;
    }
    list_inside(told, name, text, Kind::Skip, &shorts[e..g], s)
}
