// The published AC steps for C, so that no caller makes its own.
ghost use Rattle.cside.specs.Steps.{StepsTold};

use ac_steps::put_steps;
use answers::minus;
use rules::refusals::Refusal;

// 0, or minus the refusal number.
#[unsafe(no_mangle)]
pub extern "C" fn bihargesh_steps(steps: &mut [u32]) -> i32
    ensures { StepsTold steps.old result steps.new }
{
    if steps.len() < 352 {
        return minus(Refusal::Length);
    }
    put_steps(steps);
    0
}
