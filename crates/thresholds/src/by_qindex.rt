// Both thresholds of a block by its qindex, in a table that a plane makes once and reads at each edge.
ghost use Rattle.std.specs.Prelude.{◌≡◌, true, ◌/◌, ◌%◌};
ghost use Rattle.std.specs.declared.result.Result.TheVariants.{Ok};
ghost use Rattle.rules.specs.Numbers.{depth_ok, delta_ok};
ghost use Rattle.rules.specs.SideTable.{side_table};
ghost use Rattle.rules.specs.Thresholds.{both_of, steps_check};
ghost use Rattle.thresholds.specs.ByQindex.{packed_of, steady_from, ByQindex};

use crate::combine::both;
use crate::index::index;
use crate::side::side_by;
use crate::side_table::SIDE_THRESHOLDS;
use crate::steps::df_quant_from_qindex;
use laws::Gap;
use rules::depth::Depth;

// Both thresholds of a block, packed.
fn packed(
    sides: &[i16; 296],
    qindex: u16,
    deltaq: i32,
    deltaside: i32,
    depth: Depth,
    steps: &[u32],
) -> u32
    requires { (sides.now ≡ side_table) × (depth_ok depth.bits ≡ true) × (delta_ok deltaq ≡ true) × (delta_ok deltaside ≡ true) × (steps_check steps.now ≡ Ok tt) }
    ensures { result ≡ packed_of depth.bits steps.now deltaq deltaside qindex }
{
    let q = df_quant_from_qindex(index(qindex, deltaq), depth, steps);
    let side = side_by(sides, index(qindex, deltaside), depth);
    q * 65536 + side
}

// From which qindex on all are alike at a depth and two deltas.
fn steady_from(deltaq: i32, deltaside: i32, depth: Depth) -> usize
    requires { (depth_ok depth.bits ≡ true) × (delta_ok deltaq ≡ true) × (delta_ok deltaside ≡ true) }
    ensures { result ≡ steady_from depth.bits deltaq deltaside }
{
    let q = Gap::from(deltaq);
    let side = Gap::from(deltaside);
    let down = q.down.max(side.down) as usize;
    8 * down + depth.offset() as usize + 295
}

// The table: a qindex above 1415 = 8·128 + 96 + 295 gives what 1415 gives, and so does each from which on all are alike.
pub fn thresholds_by_qindex(deltaq: i32, deltaside: i32, depth: Depth, steps: &[u32]) -> [u32; 1416]
    requires { (depth_ok depth.bits ≡ true) × (delta_ok deltaq ≡ true) × (delta_ok deltaside ≡ true) × (steps_check steps.now ≡ Ok tt) }
    ensures { ByQindex depth.bits steps.now deltaq deltaside result }
{
    let sides = SIDE_THRESHOLDS;
    let n = steady_from(deltaq, deltaside, depth);
    let last = packed(&sides, 1415, deltaq, deltaside, depth, steps);
    let mut table = [last; 1416];
    for k in 0..n {
        table[k] = packed(&sides, k as u16, deltaq, deltaside, depth, steps);
    }
    table
}

// The q threshold of an edge from its two blocks' entries.
pub fn q_of(a: u32, b: u32) -> u32
    ensures { result ≡ both_of (a / 65536) (b / 65536) }
{
    both(a / 65536, b / 65536)
}

// The side threshold of an edge from its two blocks' entries.
pub fn side_of(a: u32, b: u32) -> u32
    ensures { result ≡ both_of (a % 65536) (b % 65536) }
{
    both(a % 65536, b % 65536)
}
