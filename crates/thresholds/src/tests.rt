// Refusals 1, 4 and 5 of the thresholds: the depth, the step table, the deltas.
ghost use Rattle.std.specs.Prelude.{◌≡◌, ◌<◌, length};
ghost use Rattle.rules.specs.Numbers.{delta_ok};
ghost use Rattle.rules.specs.Thresholds.{step_good, bad_step, steps_check, deltas_check, thresholds_check};

use rules::depth::Depth;
use rules::refusals::Refusal;

// Whether an entry of the step table is good.
fn step_good(steps: &[u32], k: usize) -> bool
    requires { k < length steps.now }
    ensures { result ≡ step_good steps.now k }
{
    let a = steps[k];
    if 1048576 < a {
        return false;
    }
    if k == 0 {
        return a == 64;
    }
    true
}

// The first bad entry of the step table, and 0 where its length is not 352.
fn bad_step(steps: &[u32]) -> Option<usize>
    ensures { result ≡ bad_step steps.now }
{
    if steps.len() != 352 {
        return Some(0);
    }
    for k in 0..352 {
        if !step_good(steps, k) {
            return Some(k);
        }
    }
    None
}

// Refusal 4.
pub fn steps_check(steps: &[u32]) -> Result<(), Refusal>
    ensures { result ≡ steps_check steps.now }
{
    let bad = bad_step(steps);
    if let Some(k) = bad {
        return Err(Refusal::Steps(k));
    }
    Ok(())
}

// Whether a delta is in -128..127.
pub fn delta_ok(delta: i32) -> bool
    ensures { result ≡ delta_ok delta }
{
    if delta < -128 {
        return false;
    }
    if 127 < delta {
        return false;
    }
    true
}

// Refusal 5.
pub fn deltas_check(deltaq: i32, deltaside: i32) -> Result<(), Refusal>
    ensures { result ≡ deltas_check deltaq deltaside }
{
    if !delta_ok(deltaq) {
        return Err(Refusal::Setting);
    }
    if !delta_ok(deltaside) {
        return Err(Refusal::Setting);
    }
    Ok(())
}

// The checks in their order: 1, 4, 5.
pub fn thresholds_check(
    depth: u32,
    steps: &[u32],
    deltaq: i32,
    deltaside: i32,
) -> Result<(), Refusal>
    ensures { result ≡ thresholds_check depth steps.now deltaq deltaside }
{
    if !Depth::is(depth) {
        return Err(Refusal::Depth);
    }
    steps_check(steps)?;
    deltas_check(deltaq, deltaside)
}
