// A call's state as a list of two numbers, beside the plane's settings as a list.
ghost use Rattle.std.specs.Prelude.{◌≡◌, ◌≤◌, length};
ghost use Rattle.by_list.specs.Rows.{lists_check, held_by};

use crate::planes::list_check;
use rules::refusals::Refusal;
use rules::rows::RowState;

// The first refusal that the two lists themselves give: no state, a spent one, and then what the list of settings gives.
pub fn lists_check(settings: &[i32], state: &[usize]) -> Result<(), Refusal>
    ensures { result ≡ lists_check settings.now state.now }
{
    if state.len() < 2 {
        return Err(Refusal::Length);
    }
    let spent = state[1];
    if 0 < spent {
        return Err(Refusal::Spent);
    }
    list_check(settings)
}

// The state for the next call: the count that it holds, and a 1 where a bad sample has spent it.
pub fn hold(state: &mut [usize], next: RowState)
    requires { 2 ≤ length state.old }
    ensures { state.new ≡ held_by next state.old }
{
    state[0] = next.held;
    if next.spent {
        state[1] = 1;
    }
}
