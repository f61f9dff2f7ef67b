// What the settings and the header must not say: a leaf that begins outside the picture, a letter's value twice.
ghost use Rattle.std.specs.Prelude.{◌≡◌, ◌-◌, ◌<◌, ◌≤◌, ◌/◌, length, IfSome, IsNone};
ghost use Rattle.text.specs.Places.{seek};
ghost use Rattle.y4m.specs.Headers.{tag_at};
ghost use Rattle.pictures.specs.Outside.{beyond, outside_of, twice_of};

use y4m::header::is_tag;

// Whether a place lies beyond the last row or column.
fn is_beyond(rows: usize, columns: usize, row: u16, column: u16) -> bool
    ensures { result ≡ beyond rows columns row column }
{
    rows <= row as usize || columns <= column as usize
}

// The first leaf that begins outside the picture.
pub fn outside(leaves: &[u16], rows: usize, columns: usize) -> Option<usize>
    ensures first { IfSome result (λ k. (k < length leaves.now / 4) × (k ≡ outside_of rows columns leaves.now)) }
    ensures none { IsNone result → length leaves.now / 4 ≡ outside_of rows columns leaves.now }
{
    let n = leaves.len() / 4;
    for k in 0..n {
        if is_beyond(rows, columns, leaves[4 * k], leaves[4 * k + 1]) {
            return Some(k);
        }
    }
    None
}

// The space before the next such letter of a line; as `seek` says it, the place of its last byte where there is none.
fn next_tag(text: &[u8], from: usize, last: usize, letter: u8) -> usize
    requires { (from ≤ last) × (last < length text.now) }
    ensures { result ≡ seek (tag_at text.now letter) from (last - from) }
{
    for at in from..last {
        if is_tag(text, at, letter) {
            return at;
        }
    }
    last
}

// Whether a line, whose last byte stands at last, has the letter's value twice.
pub fn twice(text: &[u8], letter: u8, last: usize) -> bool
    requires { last < length text.now }
    ensures { result ≡ twice_of text.now letter last }
{
    let first = next_tag(text, 0, last, letter);
    if first < last {
        return next_tag(text, first + 1, last, letter) < last;
    }
    false
}
