// Which line of a settings text has a setting, or one of its numbers; lines count from 1.
ghost use Rattle.std.specs.Prelude.{◌≡◌, ◌≤◌, length};
ghost use Rattle.settings.specs.Kinds.{number_of, number_or_none};
ghost use Rattle.settings.specs.Numbered.{kind_to, lines_of, numbers_to, line_or_none, line_with};

use crate::kinds::Kind;
use crate::names::kind;
use crate::walk::Walk;
use text::count::count;
use text::place::spaces;
use text::spell::read_word;

// The kind of a line that says something up to a place.
fn kind_of(text: &[u8], from: usize, stop: usize) -> Option<Kind>
    requires { (from ≤ stop) × (stop ≤ length text.now) }
    ensures { (number_or_none result ≡ kind_to text.now from stop) × (number_or_none result ≤ 23) }
{
    let at = spaces(text, from, stop);
    let w = read_word(text, at, stop);
    kind(w.value)
}

// The entry of a kind, the first one for none.
fn entry(kind: Option<Kind>) -> usize
    ensures { (result ≡ number_or_none kind) × (result ≤ 23) }
{
    match kind {
        Some(kind) => usize::from(kind),
        None => 0,
    }
}

// The last line of each kind; a line of none is counted at 0.
pub fn lines_of(text: &[u8], lines: &mut [usize; 24])
    ensures { lines.new ≡ lines_of text.now lines.old }
{
    let mut walk = Walk::new();
    while let Some(here) = walk.next(text) {
        let k = entry(kind_of(text, here.at, here.stop));
        lines[k] = here.number;
    }
}

// How many numbers a line has up to a place, where it is of a kind: its words but the name.
fn numbers_in(text: &[u8], from: usize, stop: usize, kind: Kind) -> usize
    requires { (from ≤ stop) × (stop ≤ length text.now) }
    ensures { result ≡ numbers_to text.now (number_of kind) from stop }
{
    if entry(kind_of(text, from, stop)) != usize::from(kind) {
        return 0;
    }
    count(text, from, stop).saturating_sub(1)
}

// The line that has a number of a kind, counted from 0 over all of its lines.
pub fn line_with(text: &[u8], kind: Kind, number: usize) -> Option<usize>
    ensures { result ≡ line_or_none (line_with text.now (number_of kind) number) }
{
    let mut left = number;
    let mut walk = Walk::new();
    while let Some(here) = walk.next(text) {
        let k = numbers_in(text, here.at, here.stop, kind);
        if left < k {
            return Some(here.number);
        }
        left -= k;
    }
    None
}
