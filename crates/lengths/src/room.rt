// Document 01: "An edge has room when its four lines and both reaches along them lie in the plane."
ghost use Rattle.std.specs.Prelude.{◌≡◌, true, ◌≤◌, ◌<◌};
ghost use Rattle.rules.specs.Segment.{room_along, has_room};

use crate::pairs::{reach_after, reach_before};
use rules::edge::Edge;

// The lines run along x, b samples before the edge and a after it; the four lines stand below each other along y.
fn room_along(columns: usize, rows: usize, x: usize, y: usize, b: usize, a: usize) -> bool
    requires { (x ≤ 65535) × (y ≤ 65535) × (a ≤ 8) }
    ensures { result ≡ room_along true columns rows x y b a }
{
    b <= x && x + a <= columns && y + 4 <= rows
}

pub fn has_room(columns: usize, rows: usize, e: Edge) -> bool
    requires { (e.pair < 8) × (e.x ≤ 65535) × (e.y ≤ 65535) }
    ensures { result ≡ has_room columns rows e }
{
    let b = reach_before(e.pair);
    let a = reach_after(e.pair);
    if e.dir == 0 {
        room_along(columns, rows, e.x, e.y, b, a)
    } else {
        room_along(rows, columns, e.y, e.x, b, a)
    }
}
