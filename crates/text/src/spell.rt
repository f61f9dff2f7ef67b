// A word of at most eight letters as one number: its bytes, the first one highest. A letter is any byte above the space.
ghost use Rattle.std.specs.Prelude.{◌≡◌, true, ◌+◌, ◌-◌, ◌*◌, ◌≤◌, length};
ghost use Rattle.text.specs.Words.{goes_on, read_letters, word_at};

use crate::place::blank;

// What a word says, and the place after it. A number and no `Option`: the definitions hold it against a name's (`word_at`).
#[derive(Clone, Copy)]
pub struct Word {
    pub value: usize,
    pub next: usize,
}

// Below this a value takes one more letter.
const ROOM: usize = 72057594037927936;

// A letter, and there is room for it.
fn goes_on(b: u8, value: usize) -> bool
    ensures { result ≡ goes_on b value }
{
    b > b' ' && value < ROOM
}

// A value with one letter more.
fn one_more(value: usize, b: u8) -> usize
    requires { goes_on b value ≡ true }
    ensures { result ≡ 256 * value + b }
{
    256 * value + usize::from(b)
}

// The letters from a place on, up to the first byte that is none, or to the eighth.
fn letters(text: &[u8], from: usize, end: usize) -> Word
    requires { (from ≤ end) × (end ≤ length text.now) }
    ensures value { result ≡ read_letters text.now 0 from (end - from) }
    ensures from_le_next { (from ≤ result.next) × (result.next ≤ end) }
{
    let mut value = 0;
    for at in from..end {
        let b = text[at];
        if !goes_on(b, value) {
            return Word { value, next: at };
        }
        value = one_more(value, b);
    }
    Word { value, next: end }
}

// The word at a place, 0 where something else than a space or a tab follows it.
// 0 and no Option: the definitions of `settings` and `y4m` hold the value against a name's (`word_at`), and no name is 0.
pub fn read_word(text: &[u8], from: usize, end: usize) -> Word
    requires { (from ≤ end) × (end ≤ length text.now) }
    ensures value { result ≡ word_at text.now from end }
    ensures from_le_next { (from ≤ result.next) × (result.next ≤ end) }
{
    let w = letters(text, from, end);
    let next = w.next;
    if next < end && !blank(text[next]) {
        return Word { value: 0, next };
    }
    w
}
