// Thresholds for C: the step table as bytes, the answer as one number.
ghost use Rattle.std.specs.Prelude.{◌≡◌};
ghost use Rattle.rules.specs.CSide.{c_thresholds};

use answers::{minus, packed};
use byte_lists::table;
use rules::depth::Depth;
use rules::refusals::Refusal;
use thresholds::combine::combine_thresholds;

// q·65536 + side, or minus the refusal number.
#[unsafe(no_mangle)]
pub extern "C" fn bihargesh_thresholds(
    curr: u16,
    prev: u16,
    deltaq: i32,
    deltaside: i32,
    depth: u32,
    steps: &[u8],
) -> i32
    ensures { result ≡ c_thresholds curr prev deltaq deltaside depth steps.now }
{
    if !Depth::is(depth) {
        return minus(Refusal::Depth);
    }
    if steps.len() != 1408 {
        return minus(Refusal::Steps(0));
    }
    let table = table::steps(steps);
    match combine_thresholds(curr, prev, deltaq, deltaside, depth, &table) {
        Ok(t) => packed(t.q, t.side),
        Err(r) => minus(r),
    }
}
