// A leaf's four numbers as they stand in a list, in the words of rules' TuGrid.
ghost use Rattle.std.specs.Prelude.{◌≡◌, ◌<◌, ◌/◌, length};
ghost use Rattle.rules.specs.TuGrid.{flag_of, bare_of, is_size, leaf_good, leaf_good_at, bad_leaf};
ghost use Rattle.tiles.specs.Fit.{size_good};

// Bit 4096 of a number.
pub fn flag(w: u16) -> bool
    ensures { result ≡ flag_of w }
{
    w / 4096 % 2 == 1
}

pub fn wide(n: u16) -> usize
    ensures { result ≡ n }
{
    n as usize
}

// A number without bit 4096.
pub fn bare(w: u16) -> usize
    ensures { result ≡ bare_of w }
{
    if flag(w) { wide(w - 4096) } else { wide(w) }
}

fn is_size(n: usize) -> bool
    ensures { result ≡ is_size n }
{
    match n {
        1 => true,
        2 => true,
        4 => true,
        8 => true,
        16 => true,
        32 => true,
        64 => true,
        _ => false,
    }
}

// A skip leaf's number must be a size as it stands, another leaf's without bit 4096.
fn size_good(skip: bool, w: u16) -> bool
    ensures { result ≡ size_good skip w }
{
    if skip {
        return is_size(wide(w));
    }
    is_size(bare(w))
}

pub fn leaf_good(skip: bool, row: u16, col: u16, w: u16, h: u16) -> bool
    ensures { result ≡ leaf_good skip row col w h }
{
    if 1023 < row {
        return false;
    }
    if 1023 < col {
        return false;
    }
    if !size_good(skip, w) {
        return false;
    }
    if !size_good(skip, h) {
        return false;
    }
    true
}

fn good_at(leaves: &[u16], skip: bool, k: usize) -> bool
    requires { k < length leaves.now / 4 }
    ensures { result ≡ leaf_good_at skip leaves.now k }
{
    let at = k * 4;
    leaf_good(
        skip,
        leaves[at],
        leaves[at + 1],
        leaves[at + 2],
        leaves[at + 3],
    )
}

// The first leaf of a list that is bad.
pub fn bad_leaf(leaves: &[u16], skip: bool) -> Option<usize>
    ensures { result ≡ bad_leaf skip leaves.now }
{
    let n = leaves.len() / 4;
    for k in 0..n {
        if !good_at(leaves, skip, k) {
            return Some(k);
        }
    }
    None
}
