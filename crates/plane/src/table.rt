// A table that a plane makes once and reads at each edge: the thresholds of each qindex, and from entry 1416 on a 1 for each column that starts a tile.
ghost use Rattle.std.specs.Prelude.{◌≡◌, min, get_or};
ghost use Rattle.thresholds.specs.ByQindex.{last_qindex};
ghost use Rattle.plane.specs.Run.{table_at, IsTable};

use cell_edges::starts::starts_tile;

// The k-th entry.
fn entry_of(levels: &[u32; 1416], tiles: &[u16], k: usize) -> u32
    ensures { result ≡ table_at levels.now tiles.now k }
{
    if k < 1416 {
        return levels[k];
    }
    if starts_tile(tiles, k - 1416) {
        return 1;
    }
    0
}

// The table, from the thresholds by qindex.
pub fn table_of(levels: &[u32; 1416], tiles: &[u16]) -> [u32; 2440]
    ensures { IsTable levels.now tiles.now result }
{
    let mut table = [0u32; 2440];
    for k in 0..2440 {
        table[k] = entry_of(levels, tiles, k);
    }
    table
}

// A block's thresholds.
pub fn entry(table: &[u32; 2440], qindex: u16) -> u32
    ensures { result ≡ get_or table.now (min qindex last_qindex) 0 }
{
    let k = qindex as usize;
    if k < 1415 { table[k] } else { table[1415] }
}
