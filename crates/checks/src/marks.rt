// Lists of a byte for each cell: the largest, the first keep mark that is neither 0 nor 1, and how many keep marks a run has to look at.
ghost use Rattle.std.specs.Prelude.{◌≡◌, ◌≤◌, length};
ghost use Rattle.laws.specs.Largest.{largest};
ghost use Rattle.rules.specs.Plane.{bad_keep};
ghost use Rattle.checks.specs.Asked.{Asked};

// The largest of the first count numbers.
pub fn highest(list: &[u8], count: usize) -> u8
    requires { count ≤ length list.now }
    ensures { result ≡ largest list.now 0 count }
{
    // A loop and no iter().max(): `largest` goes from the first place up and is 0 of none, as the loop.
    let mut m: u8 = 0;
    for k in 0..count {
        m = m.max(list[k]);
    }
    m
}

// The first of count cells whose keep mark is neither 0 nor 1; by index, since the place is what is found.
pub fn bad_keep(keep: &[u8], count: usize) -> Option<usize>
    requires { count ≤ length keep.now }
    ensures { result ≡ bad_keep count keep.now }
{
    for k in 0..count {
        let m = keep[k];
        if 1 < m {
            return Some(k);
        }
    }
    None
}

// How many keep marks a run of count cells is handed: none where no cell is kept, so that it asks for none.
pub fn asked(keep: &[u8], count: usize) -> usize
    requires { count ≤ length keep.now }
    ensures { Asked count keep.now result }
{
    if highest(keep, count) == 0 {
        return 0;
    }
    keep.len()
}
