// The length ladder, from the smaller size index of the two cells to the number of a pair of lengths.
ghost use Rattle.std.specs.Prelude.{◌≡◌, ◌≤◌};
ghost use Rattle.rules.specs.Lengths.{pair_of};

// The pair of an edge, whose plane is chroma or luma, and which is shortened or not.
pub fn filter_lengths(m: usize, chroma: bool, shortened: bool) -> usize
    requires { m ≤ 6 }
    ensures { result ≡ pair_of m chroma shortened }
{
    match (m, chroma, shortened) {
        (0, _, _) => 0,
        (1, true, true) => 6,
        (1, _, _) => 1,
        (2, true, true) => 7,
        (2, true, false) => 5,
        (2, false, _) => 2,
        (_, true, true) => 7,
        (_, true, false) => 5,
        (_, false, true) => 4,
        (_, false, false) => 3,
    }
}
