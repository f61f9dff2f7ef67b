// The eight pairs of lengths by number: how many samples each side filters at most, and how many it may look at.
ghost use Rattle.std.specs.Prelude.{◌≡◌, ◌<◌};
ghost use Rattle.rules.specs.Lengths.{most_before, most_after, reach_before, reach_after};

// Four tables of bytes and no table of structs: a table is made anew at each use, and eight bytes are one number.
const MOST_BEFORE: [u8; 8] = [1, 3, 6, 8, 6, 4, 2, 2];

const MOST_AFTER: [u8; 8] = [1, 3, 6, 8, 8, 4, 3, 4];

const REACH_BEFORE: [u8; 8] = [3, 4, 7, 8, 7, 5, 3, 3];

const REACH_AFTER: [u8; 8] = [3, 4, 7, 8, 8, 5, 4, 5];

// The most samples that are filtered before the edge, and after it.
pub fn most_before(pair: usize) -> usize
    requires { pair < 8 }
    ensures { result ≡ most_before pair }
{
    usize::from(MOST_BEFORE[pair])
}

pub fn most_after(pair: usize) -> usize
    requires { pair < 8 }
    ensures { result ≡ most_after pair }
{
    usize::from(MOST_AFTER[pair])
}

// How many samples may be looked at before the edge, and after it.
pub fn reach_before(pair: usize) -> usize
    requires { pair < 8 }
    ensures { result ≡ reach_before pair }
{
    usize::from(REACH_BEFORE[pair])
}

pub fn reach_after(pair: usize) -> usize
    requires { pair < 8 }
    ensures { result ≡ reach_after pair }
{
    usize::from(REACH_AFTER[pair])
}
