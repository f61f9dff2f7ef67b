// How many words stand between two places of a text: each has one last letter.
ghost use Rattle.std.specs.Prelude.{◌≡◌, ◌≤◌, ◌<◌, cond, length};
ghost use Rattle.text.specs.Words.{last_of, words_in};

use crate::place::blank;

// Whether a word's last letter stands here: a space, a tab or the end follows it.
fn is_last(text: &[u8], at: usize, end: usize) -> bool
    requires { (at < end) × (end ≤ length text.now) }
    ensures { cond result 1 0 ≡ last_of text.now end at }
{
    !blank(text[at]) && (end <= at + 1 || blank(text[at + 1]))
}

// How many words stand from a place up to an end.
pub fn count(text: &[u8], from: usize, end: usize) -> usize
    requires { (from ≤ end) × (end ≤ length text.now) }
    ensures { result ≡ words_in text.now from end }
{
    let mut words = 0;
    for at in from..end {
        words += usize::from(is_last(text, at, end));
    }
    words
}
