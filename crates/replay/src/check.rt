// The checks of a record, its plane and its keep marks, in ticket 2's order.
ghost use Rattle.std.specs.Prelude.{◌≡◌, ◌<◌, ◌≤◌, length};
ghost use Rattle.rules.specs.Record.{edge_in, entry_at, entry_count};
ghost use Rattle.rules.specs.Replay.{replay_sizes_ok, replay_long, header_ok, bad_entry, no_room_in, record_check, replay_check};
ghost use Rattle.replay.specs.Fit.{Sized, Ranged, Roomy, room_check};

use checks::{bad_keep, in_range, samples};
use lengths::ranges::ranges_ok;
use lengths::room::has_room;
use low_first::two_at;
use records::edge_at;
use rules::depth::Depth;
use rules::edge::Edge;
use rules::refusals::Refusal;
use rules::settings::Replay;

// A plane's ranges.
fn sizes_ok(s: Replay) -> bool
    ensures { result ≡ replay_sizes_ok s }
{
    if !in_range(1, 1024, s.cols) {
        return false;
    }
    if !in_range(1, 1024, s.rows) {
        return false;
    }
    in_range(4 * s.cols, 8192, s.stride)
}

// The plane and the keep marks are long enough.
fn lengths_ok(plane: &[u16], keep: &[u8], s: Replay) -> bool
    requires { Sized s }
    ensures { result ≡ replay_long s (length keep.now) (length plane.now) }
{
    if plane.len() < 4 * s.rows * s.stride {
        return false;
    }
    s.rows * s.cols <= keep.len()
}

// Mark and version.
fn header_ok(bytes: &[u8]) -> bool
    ensures { result ≡ header_ok bytes.now }
{
    if bytes.len() < 5 {
        return false;
    }
    if bytes[0] != 69 {
        return false;
    }
    if bytes[1] != 68 {
        return false;
    }
    if bytes[2] != 71 {
        return false;
    }
    two_at(bytes, 3) == 1
}

// How many whole entries follow the header.
pub fn count(bytes: &[u8]) -> usize
    requires { 5 ≤ length bytes.now }
    ensures { result ≡ entry_count bytes.now }
{
    (bytes.len() - 5) / 10
}

// Entry k.
pub fn entry(bytes: &[u8], k: usize) -> Edge
    requires { k < entry_count bytes.now }
    ensures { (result ≡ edge_in bytes.now (entry_at k)) × (result.x ≤ 65535) × (result.y ≤ 65535) }
{
    edge_at(bytes, 5 + 10 * k)
}

// The first of n entries that is out of range.
fn bad_entry(bytes: &[u8], n: usize) -> Option<usize>
    requires { n ≡ entry_count bytes.now }
    ensures { result ≡ bad_entry bytes.now }
{
    for k in 0..n {
        if !ranges_ok(entry(bytes, k)) {
            return Some(k);
        }
    }
    None
}

// The first of n entries whose edge lacks room.
fn no_room(bytes: &[u8], n: usize, s: Replay) -> Option<usize>
    requires { (n ≡ entry_count bytes.now) × Sized s × Ranged bytes.now }
    ensures { result ≡ no_room_in s bytes.now }
{
    for k in 0..n {
        if !has_room(4 * s.cols, 4 * s.rows, entry(bytes, k)) {
            return Some(k);
        }
    }
    None
}

// A record's own checks: 11, 12, 13.
pub fn record_check(bytes: &[u8]) -> Result<(), Refusal>
    ensures { result ≡ record_check bytes.now }
{
    if !header_ok(bytes) {
        return Err(Refusal::Header);
    }
    let n = count(bytes);
    if (bytes.len() - 5) % 10 != 0 {
        return Err(Refusal::Cut(n));
    }
    match bad_entry(bytes, n) {
        Some(k) => Err(Refusal::Entry(k)),
        None => Ok(()),
    }
}

// The keep marks, and what a record and its plane are to each other: 6, 7 and 8.
fn room_check(plane: &[u16], bytes: &[u8], keep: &[u8], s: Replay) -> Result<(), Refusal>
    requires { Roomy s bytes.now (length plane.now) (length keep.now) }
    ensures { result ≡ room_check s bytes.now keep.now plane.now }
{
    if let Some(k) = bad_keep(keep, s.rows * s.cols) {
        return Err(Refusal::Cell(k));
    }
    if let Some(k) = no_room(bytes, count(bytes), s) {
        return Err(Refusal::Room(k));
    }
    let depth = Depth { bits: s.depth };
    match samples(plane, 0, s.stride, 4 * s.cols, 4 * s.rows, depth.top()) {
        Some(k) => Err(Refusal::Sample(k)),
        None => Ok(()),
    }
}

// The first refusal, or none.
pub fn replay_check(plane: &[u16], bytes: &[u8], keep: &[u8], s: Replay) -> Result<(), Refusal>
    ensures { result ≡ replay_check s bytes.now keep.now plane.now }
{
    if !Depth::is(s.depth) {
        return Err(Refusal::Depth);
    }
    if !sizes_ok(s) {
        return Err(Refusal::Size);
    }
    if !lengths_ok(plane, keep, s) {
        return Err(Refusal::Length);
    }
    record_check(bytes)?;
    room_check(plane, bytes, keep, s)
}
