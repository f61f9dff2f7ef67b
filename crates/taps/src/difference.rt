// The edge difference of document 01, 4(3(q0-p0) - (q1-p1)), limited, held as one sign for the line and a size.
ghost use Rattle.std.specs.Prelude.{◌≡◌, ◌+◌, ◌*◌, ◌≤◌};
ghost use Rattle.laws.specs.Whole.{within};
ghost use Rattle.rules.specs.Taps.{difference};
ghost use Rattle.taps.specs.Signed.{signed};

// size where plus, and else -size.
#[derive(Clone, Copy)]
pub struct Difference {
    pub plus: bool,
    pub size: u32,
}

// 3·near + far: D is four times the difference of two of these.
fn slope(near: u16, far: u16) -> u32
    ensures { (result ≡ 3 * near + far) × (result ≤ 262140) }
{
    3 * (near as u32) + (far as u32)
}

// D of a line, limited to ±limit.
pub fn limited(p1: u16, p0: u16, q0: u16, q1: u16, limit: u32) -> Difference
    ensures { (signed result.plus result.size ≡ within limit (difference p1 p0 q0 q1)) × (result.size ≤ limit) }
{
    let x = slope(q0, p1);
    let y = slope(p0, q1);
    Difference {
        plus: y < x,
        size: (4 * x.abs_diff(y)).min(limit),
    }
}
