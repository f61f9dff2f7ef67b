// Places of a text: each the first from a place on at which a test holds, or the end of what is looked at.
ghost use Rattle.std.specs.Prelude.{◌≡◌, ◌-◌, ◌≤◌, ℕ, Bool, length, get_or};
ghost use Rattle.text.specs.Places.{seek, newline_at, remark_at, blank_of, blank_at, ink_at};

// The first place whose byte passes a test.
// By places of the whole text and no slice of it: the definitions of `settings` and `y4m` count each place from the text's start (`seek`).
fn first<F: Fn(u8) -> bool>(text: &[u8], from: usize, end: usize, test: F) -> usize
    requires within { (from ≤ end) × (end ≤ length text.now) }
    requires callable { F.IsAlwaysCallable test }
    ensures value { (q : ℕ → Bool)
        → ((b : ℕ) (r : Bool) → F.post test b r → r ≡ q b)
        → result ≡ seek (λ k. q (get_or text.now k 0)) from (end - from) }
    ensures lower_bound { (from ≤ result) × (result ≤ end) }
{
    match text[from..end].iter().position(|&b| test(b)) {
        Some(k) => from + k,
        None => end,
    }
}

// The newline that ends a line. Four places and no test asked for: settings, streams and y4m cite each one's clause by its name.
pub fn line_end(text: &[u8], from: usize, end: usize) -> usize
    requires { (from ≤ end) × (end ≤ length text.now) }
    ensures value { result ≡ seek (newline_at text.now) from (end - from) }
    ensures lower_bound { (from ≤ result) × (result ≤ end) }
{
    first(text, from, end, |b| b == b'\n')
}

// The number sign or carriage return that ends what a line says.
pub fn content_end(text: &[u8], from: usize, end: usize) -> usize
    requires { (from ≤ end) × (end ≤ length text.now) }
    ensures value { result ≡ seek (remark_at text.now) from (end - from) }
    ensures lower_bound { (from ≤ result) × (result ≤ end) }
{
    first(text, from, end, |b| b == b'#' || b == b'\r')
}

// A space or a tab.
pub fn blank(b: u8) -> bool
    ensures { result ≡ blank_of b }
{
    b == b' ' || b == b'\t'
}

// The first byte that is neither a space nor a tab.
pub fn spaces(text: &[u8], from: usize, end: usize) -> usize
    requires { (from ≤ end) × (end ≤ length text.now) }
    ensures value { result ≡ seek (ink_at text.now) from (end - from) }
    ensures lower_bound { (from ≤ result) × (result ≤ end) }
{
    first(text, from, end, |b| !blank(b))
}

// The space or tab that ends a word.
pub fn word_end(text: &[u8], from: usize, end: usize) -> usize
    requires { (from ≤ end) × (end ≤ length text.now) }
    ensures value { result ≡ seek (blank_at text.now) from (end - from) }
    ensures lower_bound { (from ≤ result) × (result ≤ end) }
{
    first(text, from, end, blank)
}
