// Document 02, ticket 5: whether a column is in "a list of tile-start columns in cells".
ghost use Rattle.std.specs.Prelude.{◌≡◌, length};
ghost use Rattle.rules.specs.Plane.{starts_tile};

// A column as a size.
pub fn wide(x: u16) -> usize
    ensures { result ≡ x }
{
    x as usize
}

// Whether a column starts a tile.
pub fn starts_tile(tiles: &[u16], c: usize) -> bool
    ensures { result ≡ starts_tile tiles.now (length tiles.now) c }
{
    let n = tiles.len();
    for k in 0..n {
        if wide(tiles[k]) == c {
            return true;
        }
    }
    false
}
