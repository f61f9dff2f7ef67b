// The tests that both entries share, and those of lengths and caps.
ghost use Rattle.std.specs.Prelude.{◌≡◌, [], ◌∷◌, leb};
ghost use Rattle.laws.specs.Choose.{all};
ghost use Rattle.rules.specs.Numbers.{in_range, subsampling_ok};
ghost use Rattle.rules.specs.TuGrid.{cells_ok, cap_ok, fours_ok};

use checks::in_range;

pub fn cells_ok(cols: usize, rows: usize) -> bool
    ensures { result ≡ cells_ok cols rows }
{
    if !in_range(1, 1024, cols) {
        return false;
    }
    in_range(1, 1024, rows)
}

pub fn subsampling_ok(ssx: usize, ssy: usize) -> bool
    ensures { result ≡ subsampling_ok ssx ssy }
{
    if 1 < ssx {
        return false;
    }
    ssy <= ssx
}

pub fn superblocks_ok(sbcols: usize) -> bool
    ensures { result ≡ in_range 1 128 sbcols }
{
    in_range(1, 128, sbcols)
}

pub fn cap_ok(n: usize) -> bool
    ensures { result ≡ cap_ok n }
{
    match n {
        1 => true,
        2 => true,
        4 => true,
        8 => true,
        16 => true,
        _ => false,
    }
}

// Four numbers a leaf.
pub fn fours(n: usize) -> bool
    ensures { result ≡ fours_ok n }
{
    n % 4 == 0
}

// Five lists have n entries each.
pub fn lists_long(n: usize, v: usize, h: usize, w: usize, t: usize, k: usize) -> bool
    ensures { result ≡ all (leb n v ∷ leb n h ∷ leb n w ∷ leb n t ∷ leb n k ∷ []) }
{
    if v < n {
        return false;
    }
    if h < n {
        return false;
    }
    if w < n {
        return false;
    }
    if t < n {
        return false;
    }
    n <= k
}

// Two lists of leaves have four numbers a leaf.
pub fn leaves_fours(leaves: usize, skips: usize) -> bool
    ensures { result ≡ all (fours_ok leaves ∷ fours_ok skips ∷ []) }
{
    if !fours(leaves) {
        return false;
    }
    fours(skips)
}
