// What comes before the painting: the checks in document 01's order, by lengths and by what a look through the leaves found, and the lists, keep marks too, that start at 0.
ghost use Rattle.std.specs.Prelude.{◌≡◌};
ghost use Rattle.laws.specs.Choose.{both};
ghost use Rattle.rules.specs.Numbers.{subsampling_ok};
ghost use Rattle.rules.specs.TuGrid.{marks, cells_ok, cap_ok};
ghost use Rattle.grid.specs.Start.{check_by, Started};

use super::paint::{blank, clear};
use rules::refusals::Refusal;
use rules::settings::TuGrid;
use tiles::tests::{cap_ok, cells_ok, lists_long, subsampling_ok};

fn sizes_ok(s: TuGrid) -> bool
    ensures { result ≡ both (cells_ok s.cols s.rows) (subsampling_ok s.ssx s.ssy) }
{
    if !cells_ok(s.cols, s.rows) {
        return false;
    }
    subsampling_ok(s.ssx, s.ssy)
}

fn caps_ok(s: TuGrid) -> bool
    ensures { result ≡ both (cap_ok s.capw) (cap_ok s.caph) }
{
    if !cap_ok(s.capw) {
        return false;
    }
    cap_ok(s.caph)
}

// The checks, for four lists and keep marks of these lengths, leaves of four numbers or not, and refusal 9 of the leaves.
fn check(
    v: usize,
    h: usize,
    w: usize,
    t: usize,
    k: usize,
    s: TuGrid,
    fours: bool,
    nine: Result<(), Refusal>,
) -> Result<(), Refusal>
    ensures { result ≡ check_by s fours nine v h w t k }
{
    if !sizes_ok(s) {
        return Err(Refusal::Size);
    }
    if !lists_long(s.rows * s.cols, v, h, w, t, k) {
        return Err(Refusal::Length);
    }
    if !fours {
        return Err(Refusal::Length);
    }
    if !caps_ok(s) {
        return Err(Refusal::Setting);
    }
    nine
}

// The checks, and where they accept four lists and keep marks that start at 0.
pub fn start(
    vedge: &mut [u8],
    hedge: &mut [u8],
    sqw: &mut [u8],
    sqh: &mut [u8],
    keep: &mut [u8],
    s: TuGrid,
    fours: bool,
    nine: Result<(), Refusal>,
) -> Result<(), Refusal>
    ensures { Started s fours nine (marks vedge.old hedge.old sqw.old sqh.old) keep.old
        result (marks vedge.new hedge.new sqw.new sqh.new) keep.new }
{
    check(
        vedge.len(),
        hedge.len(),
        sqw.len(),
        sqh.len(),
        keep.len(),
        s,
        fours,
        nine,
    )?;
    let cells = s.rows * s.cols;
    blank(vedge, hedge, sqw, sqh, cells);
    clear(keep, cells);
    Ok(())
}
