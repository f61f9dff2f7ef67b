// The step table from bytes, four a step.
ghost use Rattle.std.specs.Prelude.{◌≡◌, length};
ghost use Rattle.rules.specs.CSide.{steps_in};

use low_first::four_at;

// The table of 352 steps.
pub fn steps(bytes: &[u8]) -> [u32; 352]
    requires { length bytes.now ≡ 1408 }
    ensures { result ≡ steps_in 352 bytes.now }
{
    let mut t = [0u32; 352];
    // By index: step k stands at byte 4k, as the rule says.
    for k in 0..352 {
        t[k] = four_at(bytes, 4 * k);
    }
    t
}
