// The index of a block, qindex + 8·delta, as a difference of two counts.
ghost use Rattle.std.specs.Prelude.{◌≡◌, true, ◌≤◌};
ghost use Rattle.laws.specs.Whole.{between};
ghost use Rattle.rules.specs.Numbers.{delta_ok};
ghost use Rattle.thresholds.specs.Index.{whole, IndexIs};

use laws::Gap;

// The index i of a block.
pub fn index(qindex: u16, delta: i32) -> Gap
    requires { delta_ok delta ≡ true }
    ensures { IndexIs qindex delta result }
{
    let d = Gap::from(delta);
    Gap {
        up: qindex as u32 + 8 * d.up,
        down: 8 * d.down,
    }
}

// A whole number limited to low..high.
pub fn limited(i: Gap, low: u32, high: u32) -> usize
    requires { low ≤ high }
    ensures { result ≡ between low high (whole i) }
{
    if i.up < i.down {
        return low as usize;
    }
    let n = i.up - i.down;
    if n < low {
        return low as usize;
    }
    if high < n {
        return high as usize;
    }
    n as usize
}
