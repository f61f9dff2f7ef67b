// One sample of the target: the place of its offset, and the sample with that offset.
ghost use Rattle.std.specs.Prelude.{◌≡◌, ◌≤◌, ◌<◌, ◌-◌, min, pos, get_or};
ghost use Rattle.rules.specs.Ccso.{target_width, offset_place, offset_sample, offset_count, place_at};
ghost use Rattle.ccso_sample.specs.Ranges.{SignedWithin, Ranges, Raised};
ghost use Rattle.ccso_sample.specs.Lists.{RowOf, Lit, Small, moved_at};

use crate::counts::{Counts, raised};
use crate::taps::{Row, classify, limited};
use rules::settings::Ccso;

// The place of an offset, from the centre c and both classes.
fn offset_place(s: Ccso, c: u16, class0: u32, class1: u32) -> usize
    requires ranges { Ranges s }
    requires class0_bound { (class0 ≤ 3) × (class1 ≤ 3) }
    ensures { result ≡ offset_place s c class0 class1 }
{
    let band = (c as usize) >> (s.depth - s.bandlog);
    16 * band + 4 * class0 as usize + class1 as usize
}

// How far a lies past b: 0 where it does not.
fn past(a: u32, b: u32) -> u32
    ensures { result ≡ a - b }
{
    if a < b { 0 } else { a - b }
}

// The lower of two.
fn lower(a: u32, b: u32) -> u32
    ensures { result ≡ min a b }
{
    if a < b { a } else { b }
}

// A sample v with an offset, limited to 0..top.
fn offset_sample(s: Ccso, k: Counts, v: u16, offset: i8) -> u16
    requires raised { Raised s k }
    requires signed_within { SignedWithin offset 10 }
    ensures { result ≡ offset_sample s v offset }
{
    let up = v as u32 + raised(offset as i32, 10) * s.scale;
    let down = 10 * s.scale;
    lower(past(up, down), k.top) as u16
}

// The place of the offset of column x.
fn place_at(luma: &[u16], s: Ccso, k: Counts, r: Row, x: usize) -> usize
    requires raised { Raised s k }
    requires row_of { RowOf s r }
    requires x_bound { x < target_width s }
    requires lit { Lit s luma.now }
    ensures { (result ≡ place_at s luma.now x r.y) × (result < offset_count s) }
{
    let at = x * k.across;
    let centre = r.centre + at;
    let tap0 = r.tap0 + limited(at, k.dx0, s.width);
    let tap1 = r.tap1 + limited(at, k.dx1, s.width);
    let c = luma[centre];
    let class0 = classify(s, k, luma[tap0], c);
    let class1 = classify(s, k, luma[tap1], c);
    offset_place(s, c, class0, class1)
}

// The sample v at column x with its offset.
pub fn sample_at(luma: &[u16], offsets: &[i8], s: Ccso, k: Counts, r: Row, x: usize, v: u16) -> u16
    requires raised { Raised s k }
    requires row_of { RowOf s r }
    requires x_bound { x < target_width s }
    requires lit { Lit s luma.now }
    requires small { Small s offsets.now }
    ensures { result ≡ moved_at s luma.now offsets.now x r.y v }
{
    let p = place_at(luma, s, k, r, x);
    offset_sample(s, k, v, offsets[p])
}
