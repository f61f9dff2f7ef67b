// Numbers of two and of four bytes, low byte first: read at a place of a list, and put there.
#![tactic(auto)]

ghost use Rattle.std.specs.Prelude.{◌≡◌, ◌+◌, ◌*◌, ◌%◌, ◌≤◌, length};
ghost use Rattle.std.proofs.lemmas.List.Edits.{sets};
ghost use Rattle.low_first.specs.Bytes.{number_in, low_first};

// Two bytes as a number.
pub fn two(low: u8, high: u8) -> u16
    ensures { result ≡ low + 256 * high }
{
    u16::from_le_bytes([low, high])
}

// The number of two bytes at a place.
pub fn two_at(bytes: &[u8], at: usize) -> u16
    requires { at + 2 ≤ length bytes.now }
    ensures { result ≡ number_in 2 bytes.now at }
{
    u16::from_le_bytes([bytes[at], bytes[at + 1]])
}

// The number of four bytes at a place; a function for each width, since the library's from_le_bytes and to_le_bytes stand in no trait.
pub fn four_at(bytes: &[u8], at: usize) -> u32
    requires { at + 4 ≤ length bytes.now }
    ensures { result ≡ number_in 4 bytes.now at }
{
    u32::from_le_bytes([bytes[at], bytes[at + 1], bytes[at + 2], bytes[at + 3]])
}

// The low byte of a number.
pub fn low(v: u32) -> u8
    ensures { result ≡ v % 256 }
{
    v.to_le_bytes()[0]
}

// Puts a number of two bytes at a place.
pub fn put_two(bytes: &mut [u8], at: usize, v: u16)
    requires { at + 2 ≤ length bytes.old }
    ensures { bytes.new ≡ sets bytes.old at (low_first 2 v) }
{
    bytes[at..at + 2].copy_from_slice(&v.to_le_bytes());
}

// Puts a number of four bytes at a place.
pub fn put_four(bytes: &mut [u8], at: usize, v: u32)
    requires { at + 4 ≤ length bytes.old }
    ensures { bytes.new ≡ sets bytes.old at (low_first 4 v) }
{
    bytes[at..at + 4].copy_from_slice(&v.to_le_bytes());
}
