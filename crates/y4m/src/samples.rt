// Rows of samples from bytes and back: one byte a sample, or two with the low one first.
ghost use Rattle.std.specs.Prelude.{◌≡◌, ◌*◌, ◌≤◌, length, get_or};
ghost use Rattle.laws.specs.Loops.{filled};
ghost use Rattle.low_first.specs.Bytes.{number_in, byte_at};
ghost use Rattle.y4m.specs.Rows.{sample_at, padded_at, byte_of};

use low_first::{low, two};

// A byte of a list, 0 beyond its end.
fn byte_at(bytes: &[u8], at: usize) -> u8
    ensures { result ≡ get_or bytes.now at 0 }
{
    bytes.get(at).copied().unwrap_or(0)
}

// A sample of a list, 0 beyond its end.
fn sample_at(row: &[u16], at: usize) -> u16
    ensures { result ≡ get_or row.now at 0 }
{
    row.get(at).copied().unwrap_or(0)
}

// Sample k of two bytes.
fn wide_sample(bytes: &[u8], k: usize) -> u16
    requires { k ≤ 4096 }
    ensures { result ≡ number_in 2 bytes.now (2 * k) }
{
    two(byte_at(bytes, 2 * k), byte_at(bytes, 2 * k + 1))
}

// Sample k.
fn sample(bytes: &[u8], k: usize, wide: bool) -> u16
    requires { k ≤ 4096 }
    ensures { result ≡ sample_at wide bytes.now k }
{
    if wide {
        return wide_sample(bytes, k);
    }
    byte_at(bytes, k) as u16
}

// Sample k of a row that goes on with its last sample.
fn padded(bytes: &[u8], k: usize, width: usize, wide: bool) -> u16
    requires { (1 ≤ width) × (width ≤ 4096) }
    ensures { result ≡ padded_at wide width bytes.now k }
{
    if k < width {
        return sample(bytes, k, wide);
    }
    sample(bytes, width - 1, wide)
}

// A whole row: its samples, and then its last one again.
pub fn to_samples(bytes: &[u8], row: &mut [u16], width: usize, wide: bool)
    requires { (1 ≤ width) × (width ≤ 4096) }
    ensures { row.new ≡ filled row.old (λ k. padded_at wide width bytes.now k) (length row.old) }
{
    for k in 0..row.len() {
        row[k] = padded(bytes, k, width, wide);
    }
}

// Byte i of samples of two bytes.
fn wide_byte(row: &[u16], i: usize) -> u8
    ensures { result ≡ byte_at 2 row.now i }
{
    let v = sample_at(row, i / 2);
    if i % 2 == 0 {
        return low(v as u32);
    }
    low(v as u32 / 256)
}

// Byte i of a row.
fn byte(row: &[u16], i: usize, wide: bool) -> u8
    ensures { result ≡ byte_of wide row.now i }
{
    if wide {
        return wide_byte(row, i);
    }
    low(sample_at(row, i) as u32)
}

// A whole row's bytes.
pub fn to_bytes(row: &[u16], bytes: &mut [u8], wide: bool)
    ensures { bytes.new ≡ filled bytes.old (λ i. byte_of wide row.now i) (length bytes.old) }
{
    for i in 0..bytes.len() {
        bytes[i] = byte(row, i, wide);
    }
}
