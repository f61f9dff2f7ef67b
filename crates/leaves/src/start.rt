// What comes before the painting: refusal 9 by what a look through both lists of leaves found, and the grid's checks and lists that start at 0.
ghost use Rattle.std.specs.Prelude.{◌≡◌, true};
ghost use Rattle.rules.specs.TuGrid.{marks};
ghost use Rattle.grid.specs.Start.{Started};
ghost use Rattle.leaves.specs.Records.{leaves_check};

use rules::refusals::Refusal;
use rules::settings::TuGrid;

// Refusal 9 of n leaves, and then of m skip leaves, by how many good ones each list starts with.
fn leaves_ok(n: usize, good: usize, m: usize, sound: usize) -> Result<(), Refusal>
    ensures { result ≡ leaves_check n good m sound }
{
    if good < n {
        return Err(Refusal::Leaf(good));
    }
    if sound < m {
        return Err(Refusal::Leaf(sound));
    }
    Ok(())
}

// The checks, of which no list of records is cut short, and where they accept four lists and keep marks that start at 0.
pub fn start(
    vedge: &mut [u8],
    hedge: &mut [u8],
    sqw: &mut [u8],
    sqh: &mut [u8],
    keep: &mut [u8],
    s: TuGrid,
    n: usize,
    good: usize,
    m: usize,
    sound: usize,
) -> Result<(), Refusal>
    ensures { Started s true (leaves_check n good m sound) (marks vedge.old hedge.old sqw.old sqh.old) keep.old
        result (marks vedge.new hedge.new sqw.new sqh.new) keep.new }
{
    let nine = leaves_ok(n, good, m, sound);
    grid::start::start(vedge, hedge, sqw, sqh, keep, s, true, nine)
}
