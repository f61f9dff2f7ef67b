// One entry of a record, ten bytes: x, y, direction, pair, q and side.
ghost use Rattle.std.specs.Prelude.{◌≡◌, ◌+◌, ◌*◌, ◌≤◌, ◌<◌, length};
ghost use Rattle.std.proofs.lemmas.List.Edits.{sets};
ghost use Rattle.rules.specs.Record.{entry_of, edge_in};
ghost use Rattle.records.specs.Fit.{InBytes};

use low_first::{put_four, put_two, two_at};
use rules::edge::Edge;

// Two numbers of two bytes as one of four, the first below the second.
fn four(low: u32, high: u32) -> u32
    requires { (low < 65536) × (high < 65536) }
    ensures { result ≡ low + 65536 * high }
{
    low + 65536 * high
}

// Two numbers of one byte as one of two.
fn two(low: usize, high: usize) -> u16
    requires { (low < 256) × (high < 256) }
    ensures { result ≡ low + 256 * high }
{
    (low + 256 * high) as u16
}

// Puts an edge's entry at a place.
pub fn put_edge(bytes: &mut [u8], at: usize, e: Edge)
    requires { InBytes e × (at + 10 ≤ length bytes.old) }
    ensures { bytes.new ≡ sets bytes.old at (entry_of e) }
{
    put_four(bytes, at, four(e.x as u32, e.y as u32));
    put_two(bytes, at + 4, two(e.dir, e.pair));
    put_four(bytes, at + 6, four(e.q, e.side));
}

// A byte as a larger number.
fn wide(b: u8) -> usize
    ensures { result ≡ b }
{
    b as usize
}

// The edge whose entry stands at a place.
pub fn edge_at(bytes: &[u8], at: usize) -> Edge
    requires { at + 10 ≤ length bytes.now }
    ensures { (result ≡ edge_in bytes.now at) × (result.x ≤ 65535) × (result.y ≤ 65535) }
{
    let x = two_at(bytes, at) as usize;
    let y = two_at(bytes, at + 2) as usize;
    let dir = wide(bytes[at + 4]);
    let pair = wide(bytes[at + 5]);
    let q = two_at(bytes, at + 6) as u32;
    let side = two_at(bytes, at + 8) as u32;
    Edge {
        x: x,
        y: y,
        dir: dir,
        pair: pair,
        q: q,
        side: side,
    }
}
