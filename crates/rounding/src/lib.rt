// A size as rules' Frame counts it: shifted or halved by a subsampling, rounded up to 8, and in superblocks.
#![tactic(auto)]

ghost use Rattle.std.specs.Prelude.{◌≡◌, ◌≤◌};
ghost use Rattle.rules.specs.Numbers.{down};
ghost use Rattle.rules.specs.Frame as Frame;

// A number shifted right by a subsampling.
pub fn shifted(ss: usize, n: usize) -> usize
    requires { ss ≤ 1 }
    ensures { result ≡ down ss n }
{
    if ss == 0 { n } else { n / 2 }
}

// A size halved by a subsampling, rounded up.
pub fn halved(ss: usize, n: usize) -> usize
    requires { (ss ≤ 1) × (n ≤ 4096) }
    ensures { (result ≡ Frame.halved ss n) × (result ≤ 4096) }
{
    shifted(ss, n + ss)
}

// A size rounded up to 8.
pub fn up_to_eight(n: usize) -> usize
    requires { n ≤ 4096 }
    ensures { (result ≡ Frame.up_to_eight n) × (n ≤ result) × (result ≤ 4096) }
{
    n.next_multiple_of(8)
}

// How many superblocks of 64 samples a size has.
pub fn superblocks(n: usize) -> usize
    requires { n ≤ 4096 }
    ensures { (result ≡ Frame.superblocks n) × (result ≤ 64) }
{
    n.div_ceil(64)
}
