// The two lengths of a pair, by its number.
ghost use Rattle.std.specs.Prelude.{◌≡◌, ◌<◌};
ghost use Rattle.rules.specs.Lengths.{length_before, length_after};

const BEFORE: [usize; 8] = [4, 8, 14, 18, 14, 10, 6, 6];

const AFTER: [usize; 8] = [4, 8, 14, 18, 18, 10, 8, 10];

pub fn length_before(pair: usize) -> usize
    requires { pair < 8 }
    ensures { result ≡ length_before pair }
{
    BEFORE[pair]
}

pub fn length_after(pair: usize) -> usize
    requires { pair < 8 }
    ensures { result ≡ length_after pair }
{
    AFTER[pair]
}
