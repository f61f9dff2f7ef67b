// The thresholds of an edge, from those of its two blocks: the public entry, and what it is made of.
ghost use Rattle.std.specs.Prelude.{◌≡◌, true, ◌≤◌};
ghost use Rattle.std.specs.declared.result.Result.TheVariants.{Ok};
ghost use Rattle.rules.specs.Numbers.{depth_ok, delta_ok};
ghost use Rattle.rules.specs.Thresholds.{steps_check, both_of, q_threshold, side_threshold, thresholds_of};

use crate::index::index;
use crate::side::df_side_from_qindex;
use crate::steps::df_quant_from_qindex;
use crate::tests::thresholds_check;
use rules::depth::Depth;
use rules::refusals::{Refusal, Thresholds};

// One threshold of two blocks.
pub fn both(a: u32, b: u32) -> u32
    requires { (a ≤ 65535) × (b ≤ 65535) }
    ensures { result ≡ both_of a b }
{
    if a == 0 {
        return b;
    }
    if b == 0 {
        return a;
    }
    (a + b + 1) / 2
}

// The q threshold of an edge.
pub fn q_threshold(curr: u16, prev: u16, delta: i32, depth: Depth, steps: &[u32]) -> u32
    requires { (depth_ok depth.bits ≡ true) × (delta_ok delta ≡ true) × (steps_check steps.now ≡ Ok tt) }
    ensures { result ≡ q_threshold depth.bits steps.now curr prev delta }
{
    let a = df_quant_from_qindex(index(curr, delta), depth, steps);
    let b = df_quant_from_qindex(index(prev, delta), depth, steps);
    both(a, b)
}

// The side threshold of an edge.
pub fn side_threshold(curr: u16, prev: u16, delta: i32, depth: Depth) -> u32
    requires { (depth_ok depth.bits ≡ true) × (delta_ok delta ≡ true) }
    ensures { result ≡ side_threshold depth.bits curr prev delta }
{
    let a = df_side_from_qindex(index(curr, delta), depth);
    let b = df_side_from_qindex(index(prev, delta), depth);
    both(a, b)
}

// Both thresholds of an edge, or the first refusal, on any input.
pub fn combine_thresholds(
    curr: u16,
    prev: u16,
    deltaq: i32,
    deltaside: i32,
    depth: u32,
    steps: &[u32],
) -> Result<Thresholds, Refusal>
    ensures { result ≡ thresholds_of curr prev deltaq deltaside depth steps.now }
{
    thresholds_check(depth, steps, deltaq, deltaside)?;
    let known = Depth { bits: depth };
    let q = q_threshold(curr, prev, deltaq, known, steps);
    let side = side_threshold(curr, prev, deltaside, known);
    Ok(Thresholds { q, side })
}
