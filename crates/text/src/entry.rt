// The entries of a line's lists: u8, u16 and u32, each of them a number up to a limit of its type.
ghost use Rattle.std.specs.Prelude.{◌≡◌, ◌≤◌, ℕ, refl};

// A type of entries: the largest number that one takes, the entry of a number, and the number of an entry.
pub trait Entry: Copy {
    ghost MOST: { ℕ };

    ghost entry_of: { ℕ → Self };

    ghost number_of: { Self → ℕ };

    const MOST: usize;

    fn entry(number: usize) -> Self
        requires { number ≤ MOST }
        ensures { result ≡ entry_of number };

    fn number(self) -> usize
        ensures { result ≡ number_of self };

    ghost keeps_number: { (n : ℕ) → n ≤ MOST → number_of (entry_of n) ≡ n };
}

impl Entry for u8 {
    ghost MOST = { 255 };

    ghost entry_of = { λ n. n };

    ghost number_of = { λ v. v };

    const MOST: usize = 255;

    fn entry(number: usize) -> u8 {
        number as u8
    }

    fn number(self) -> usize {
        usize::from(self)
    }

    ghost keeps_number = { λ n _. refl };
}

impl Entry for u16 {
    ghost MOST = { 65535 };

    ghost entry_of = { λ n. n };

    ghost number_of = { λ v. v };

    const MOST: usize = 65535;

    fn entry(number: usize) -> u16 {
        number as u16
    }

    fn number(self) -> usize {
        usize::from(self)
    }

    ghost keeps_number = { λ n _. refl };
}

impl Entry for u32 {
    ghost MOST = { 4294967295 };

    ghost entry_of = { λ n. n };

    ghost number_of = { λ v. v };

    const MOST: usize = 4294967295;

    fn entry(number: usize) -> u32 {
        number as u32
    }

    fn number(self) -> usize {
        self as usize
    }

    ghost keeps_number = { λ n _. refl };
}
