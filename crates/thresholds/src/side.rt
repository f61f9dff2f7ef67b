// The side threshold of an index.
ghost use Rattle.std.specs.Prelude.{◌≡◌, true, ◌^◌, ◌≤◌};
ghost use Rattle.rules.specs.Numbers.{depth_ok, shift_of};
ghost use Rattle.rules.specs.SideTable.{side_table};
ghost use Rattle.rules.specs.Thresholds.{lowered, side_of};
ghost use Rattle.thresholds.specs.Index.{whole};

use crate::index::limited;
use crate::side_table::{SIDE_THRESHOLDS, side_entry};
use laws::Gap;
use rules::depth::Depth;

// The divisor that brings an entry down to the depth.
fn unit(depth: Depth) -> u32
    requires { depth_ok depth.bits ≡ true }
    ensures { result ≡ 2 ^ shift_of depth.bits }
{
    1u32 << depth.shift()
}

// An entry brought down to the depth: half a unit is added, what is below 0 is dropped.
fn lower(t: Gap, depth: Depth) -> u32
    requires { (depth_ok depth.bits ≡ true) × (t.up ≤ 65535) × (t.down ≤ 65535) }
    ensures { result ≡ lowered depth.bits (whole t) }
{
    let whole = unit(depth);
    let up = t.up + whole / 2;
    if up < t.down {
        return 0;
    }
    (up - t.down) / whole
}

// The side threshold of an index, by the table.
pub fn side_by(sides: &[i16; 296], i: Gap, depth: Depth) -> u32
    requires { (sides.now ≡ side_table) × (depth_ok depth.bits ≡ true) × (i.up ≤ 1000000) × (i.down ≤ 1000000) }
    ensures { result ≡ side_of depth.bits (whole i) }
{
    let lifted = Gap {
        up: i.up,
        down: i.down + depth.offset() as u32,
    };
    let k = limited(lifted, 0, 295);
    lower(Gap::from(i32::from(side_entry(sides, k))), depth)
}

// The side threshold of an index.
pub fn df_side_from_qindex(i: Gap, depth: Depth) -> u32
    requires { (depth_ok depth.bits ≡ true) × (i.up ≤ 1000000) × (i.down ≤ 1000000) }
    ensures { result ≡ side_of depth.bits (whole i) }
{
    let sides = SIDE_THRESHOLDS;
    side_by(&sides, i, depth)
}
