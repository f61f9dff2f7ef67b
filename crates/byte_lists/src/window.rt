// The window of one segment: four lines of eighteen samples, two bytes a sample, the edge between the ninth and the tenth.
ghost use Rattle.std.specs.Prelude.{◌≡◌, length};
ghost use Rattle.rules.specs.CSide.{samples_in, bytes_of, window_edge};

use low_first::{put_two, two_at};
use rules::settings::Lone;

// The window's 72 samples.
pub fn samples(bytes: &[u8]) -> [u16; 72]
    requires { length bytes.now ≡ 144 }
    ensures { result ≡ samples_in bytes.now }
{
    let mut l = [0u16; 72];
    // By index: sample k stands at byte 2k, as the rule says.
    for k in 0..72 {
        l[k] = two_at(bytes, 2 * k);
    }
    l
}

// Puts its samples back.
pub fn put_samples(bytes: &mut [u8], l: &[u16; 72])
    requires { length bytes.old ≡ 144 }
    ensures { bytes.new ≡ bytes_of l.now }
{
    // By index: sample k goes to byte 2k.
    for k in 0..72 {
        put_two(bytes, 2 * k, l[k]);
    }
}

// Its edge, as a lone segment of a plane of four rows.
pub fn edge(depth: u32, pair: u32, q: u32, side: u32) -> Lone
    ensures { result ≡ window_edge depth pair q side }
{
    Lone {
        columns: 18,
        rows: 4,
        stride: 18,
        depth: depth,
        q: q,
        side: side,
        pair: pair as usize,
        dir: 0,
        x: 9,
        y: 0,
    }
}
