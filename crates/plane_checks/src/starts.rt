// Document 02, ticket 5: "a list of tile-start columns in cells, strictly rising, each above 0 and below mi_cols".
ghost use Rattle.std.specs.Prelude.{◌≡◌, ◌-◌, ◌<◌, eqb, length, get_or};
ghost use Rattle.laws.specs.Choose.{pick};
ghost use Rattle.rules.specs.Plane.{start_good, bad_start, tiles_check};

use cell_edges::starts::wide;
use rules::refusals::Refusal;

// The number that a start is to be above: the start before it, and 0 for the first.
fn floor(tiles: &[u16], k: usize) -> usize
    requires { k < length tiles.now }
    ensures { result ≡ pick (eqb k 0) 0 (get_or tiles.now (k - 1) 0) }
{
    if k == 0 {
        return 0;
    }
    wide(tiles[k - 1])
}

// Whether a start is good.
fn start_good(tiles: &[u16], cols: usize, k: usize) -> bool
    requires { k < length tiles.now }
    ensures { result ≡ start_good cols tiles.now k }
{
    let start = wide(tiles[k]);
    if start <= floor(tiles, k) {
        return false;
    }
    start < cols
}

// The first start that is not good.
fn bad_start(tiles: &[u16], cols: usize) -> Option<usize>
    ensures { result ≡ bad_start cols tiles.now }
{
    let n = tiles.len();
    for k in 0..n {
        if !start_good(tiles, cols, k) {
            return Some(k);
        }
    }
    None
}

// Refusal 5 of a list of tile starts.
pub fn tiles_check(tiles: &[u16], cols: usize) -> Result<(), Refusal>
    ensures { result ≡ tiles_check cols tiles.now }
{
    let bad = bad_start(tiles, cols);
    if let Some(_) = bad {
        return Err(Refusal::Setting);
    }
    Ok(())
}
