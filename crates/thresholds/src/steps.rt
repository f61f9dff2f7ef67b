// The AC step of an index, looked up in the lent table, and the q threshold that it gives.
ghost use Rattle.std.specs.Prelude.{◌≡◌, true, ◌≤◌};
ghost use Rattle.std.specs.declared.result.Result.TheVariants.{Ok};
ghost use Rattle.rules.specs.Numbers.{depth_ok};
ghost use Rattle.rules.specs.Thresholds.{step_of, quant_of, steps_check};
ghost use Rattle.thresholds.specs.Index.{whole};

use crate::index::limited;
use laws::Gap;
use rules::depth::Depth;

// The AC step a(i).
pub fn ac_quant_qtx(i: Gap, depth: Depth, steps: &[u32]) -> u32
    requires { (depth_ok depth.bits ≡ true) × (steps_check steps.now ≡ Ok tt) }
    ensures { result ≡ step_of depth.bits steps.now (whole i) }
{
    if i.up == i.down {
        return 64;
    }
    let k = limited(i, 1, depth.highest() as u32);
    steps[k]
}

// The q threshold of a step.
fn quant(a: u32) -> u32
    requires { a ≤ 1048576 }
    ensures { result ≡ quant_of a }
{
    (a + 4) / 8 / 64
}

// The q threshold of an index.
pub fn df_quant_from_qindex(i: Gap, depth: Depth, steps: &[u32]) -> u32
    requires { (depth_ok depth.bits ≡ true) × (steps_check steps.now ≡ Ok tt) }
    ensures { result ≡ quant_of (step_of depth.bits steps.now (whole i)) }
{
    quant(ac_quant_qtx(i, depth, steps))
}
