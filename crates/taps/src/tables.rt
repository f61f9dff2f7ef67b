// M and W of document 01 as constant tables, and what an edge takes from them once.
ghost use Rattle.std.specs.Prelude.{◌≡◌, ◌*◌, ◌≤◌};
ghost use Rattle.rules.specs.Taps.{most_of, weight_of};

const M: [u8; 8] = [32, 25, 19, 19, 18, 18, 17, 17];

const W: [u8; 8] = [85, 51, 37, 28, 23, 20, 17, 15];

// q·M[w]: how far D of an edge with after-width w may go either way.
pub fn limit_of(q: u32, w: usize) -> u32
    requires { (q ≤ 2048) × (1 ≤ w) × (w ≤ 8) }
    ensures { (result ≡ q * most_of w) × (result ≤ 65536) }
{
    q * u32::from(M[w - 1])
}

// W[s]: the weight of a side of width s.
pub fn weight(s: usize) -> u32
    requires { (1 ≤ s) × (s ≤ 8) }
    ensures { (result ≡ weight_of s) × (result ≤ 85) }
{
    u32::from(W[s - 1])
}

// A size of D times W[s]: what a sample next to the end of a side is moved by, before the division.
pub fn weighted(size: u32, weight: u32) -> u32
    requires { (size ≤ 65536) × (weight ≤ 85) }
    ensures { (result ≡ size * weight) × (result ≤ 5570560) }
{
    size * weight
}
