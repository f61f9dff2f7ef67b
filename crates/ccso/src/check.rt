// The checks of an entry in their order: depth, sizes, lengths, settings, offsets, samples.
ghost use Rattle.std.specs.Prelude.{◌≡◌, Bool, true, ◌≤◌, ◌*◌, pos, neg_ℤ, length};
ghost use Rattle.std.specs.Int.Signed.{le_z};
ghost use Rattle.rules.specs.Numbers.{depth_ok, in_range, in_range_z};
ghost use Rattle.rules.specs.Ccso.{target_width, target_height, ccso_sizes_ok, ccso_lengths_ok, ccso_settings_ok, offset_ok, offset_count, ccso_check};
ghost use Rattle.rules.specs.Refusals.{first, found, found_unless, over_row};
ghost use Rattle.rules.specs.declared.refusals.Refusal.TheVariants.{Sample};
ghost use Rattle.ccso.specs.Checks.{cuts_ok, classes_ok, taps_ok, samples_check};

use checks::row;
use laws::Gap;
use rounding::{halved, superblocks};
use rules::depth::Depth;
use rules::refusals::Refusal;
use rules::settings::Ccso;

fn sizes_ok(s: Ccso) -> bool
    ensures { result ≡ ccso_sizes_ok s }
{
    if s.width < 1 {
        return false;
    }
    if 4096 < s.width {
        return false;
    }
    if s.height < 1 {
        return false;
    }
    if 4096 < s.height {
        return false;
    }
    if 1 < s.ssx {
        return false;
    }
    s.ssy <= s.ssx
}

// Whether v lies in -low..high.
fn in_range(v: i32, low: u32, high: u32) -> bool
    ensures { result ≡ in_range_z (neg_ℤ (pos low)) (pos high) v }
{
    let g = Gap::from(v);
    if low < g.down {
        return false;
    }
    g.up <= high
}

// Whether a is at most b.
fn at_most(a: i32, b: i32) -> bool
    ensures { result ≡ le_z a b }
{
    a <= b
}

// Scale and cuts.
fn cuts_ok(s: Ccso) -> bool
    ensures { result ≡ cuts_ok s }
{
    if s.scale < 1 {
        return false;
    }
    if 16 < s.scale {
        return false;
    }
    if !in_range(s.lo, 4095, 4095) {
        return false;
    }
    if !in_range(s.hi, 4095, 4095) {
        return false;
    }
    at_most(s.lo, s.hi)
}

fn classes_ok(s: Ccso) -> bool
    ensures { result ≡ classes_ok s }
{
    if 3 < s.below {
        return false;
    }
    if 3 < s.within {
        return false;
    }
    s.above <= 3
}

// Taps and band log2.
fn taps_ok(s: Ccso) -> bool
    ensures { result ≡ taps_ok s }
{
    if !in_range(s.dx0, 16, 16) {
        return false;
    }
    if !in_range(s.dy0, 16, 16) {
        return false;
    }
    if !in_range(s.dx1, 16, 16) {
        return false;
    }
    if !in_range(s.dy1, 16, 16) {
        return false;
    }
    s.bandlog <= 3
}

fn settings_ok(s: Ccso) -> bool
    ensures { result ≡ ccso_settings_ok s }
{
    if !cuts_ok(s) {
        return false;
    }
    if !classes_ok(s) {
        return false;
    }
    taps_ok(s)
}

// Sizes in range, whether the lists, by their lengths, are long enough.
fn lengths_ok(s: Ccso, luma: usize, target: usize, flags: usize, offsets: usize) -> bool
    requires { ccso_sizes_ok s ≡ true }
    ensures { result ≡ ccso_lengths_ok s luma target flags offsets }
{
    if luma < s.height * s.width {
        return false;
    }
    if target < halved(s.ssy, s.height) * halved(s.ssx, s.width) {
        return false;
    }
    if flags < superblocks(s.height) * superblocks(s.width) {
        return false;
    }
    if 3 < s.bandlog {
        return true;
    }
    count_of(s) <= offsets
}

// The offsets in use.
fn count_of(s: Ccso) -> usize
    requires { s.bandlog ≤ 3 }
    ensures { result ≡ offset_count s }
{
    let b = s.bandlog;
    match b {
        0 => 16,
        1 => 32,
        2 => 64,
        _ => 128,
    }
}

// The first of count offsets that is not in -10..7.
fn bad_offset(offsets: &[i8], count: usize) -> Option<usize>
    requires { count ≤ length offsets.now }
    ensures { result ≡ first count (λ k. found_unless (offset_ok offsets.now k) k) }
{
    for k in 0..count {
        let o = offsets[k];
        if !in_range(o as i32, 10, 7) {
            return Some(k);
        }
    }
    None
}

// The first refusal, or none.
pub fn check(
    luma: &[u16],
    target: &[u16],
    flags: &[u8],
    offsets: &[i8],
    s: Ccso,
) -> Result<(), Refusal>
    ensures { result ≡ ccso_check s luma.now flags.now offsets.now target.now }
{
    if !Depth::is(s.depth) {
        return Err(Refusal::Depth);
    }
    if !sizes_ok(s) {
        return Err(Refusal::Size);
    }
    if !lengths_ok(s, luma.len(), target.len(), flags.len(), offsets.len()) {
        return Err(Refusal::Length);
    }
    if !settings_ok(s) {
        return Err(Refusal::Setting);
    }
    if bad_offset(offsets, count_of(s)).is_some() {
        return Err(Refusal::Setting);
    }
    samples_ok(luma, target, s)
}

// Refusal 8 of the first count samples of a list.
fn list_ok(xs: &[u16], count: usize, top: u16) -> Result<(), Refusal>
    requires { count ≤ length xs.now }
    ensures { result ≡ found (over_row top xs.now 0 count) Sample }
{
    match row(xs, 0, count, top) {
        Some(k) => Err(Refusal::Sample(k)),
        None => Ok(()),
    }
}

// The last check: every sample of luma, then of the target.
fn samples_ok(luma: &[u16], target: &[u16], s: Ccso) -> Result<(), Refusal>
    requires { (depth_ok s.depth ≡ true) × (ccso_sizes_ok s ≡ true) × (s.height * s.width ≤ length luma.now) × (target_height s * target_width s ≤ length target.now) }
    ensures { result ≡ samples_check s luma.now target.now }
{
    let d = Depth { bits: s.depth };
    let top = d.top();
    list_ok(luma, s.height * s.width, top)?;
    let count = halved(s.ssy, s.height) * halved(s.ssx, s.width);
    list_ok(target, count, top)
}
