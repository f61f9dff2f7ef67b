// The qindex grid and its entry: the checks in document 01's order, then each cell takes its superblock's entry.
ghost use Rattle.std.specs.Prelude.{◌≡◌, ◌≤◌, ◌<◌, length, [], ◌∷◌, leb};
ghost use Rattle.rules.specs.Numbers.{up};
ghost use Rattle.laws.specs.Choose.{all};
ghost use Rattle.rules.specs.Numbers.{in_range, subsampling_ok};
ghost use Rattle.rules.specs.TuGrid.{cells_ok};
ghost use Rattle.rules.specs.QindexGrid.{superblock_of, q_cell, q_row, q_grid_of, q_grid_check, q_grid_after};
ghost use Rattle.qindex.specs.Fit.{QFit, QChecked};

use rules::refusals::Refusal;
use rules::settings::QindexGrid;
use tiles::tests::{cells_ok, subsampling_ok, superblocks_ok};

// A cell's number shifted left by a subsampling.
fn luma(ss: usize, n: usize) -> usize
    requires { (ss ≤ 1) × (n < 1024) }
    ensures { result ≡ up ss n }
{
    if ss == 0 { n } else { n * 2 }
}

// The entry of a cell's superblock, the last one at most.
fn superblock(s: QindexGrid, count: usize, r: usize, c: usize) -> usize
    requires { (s.ssx ≤ 1) × (s.ssy ≤ 1) × (r < 1024) × (c < 1024) × (s.sbcols ≤ 128) × (1 ≤ count) }
    ensures { result ≡ superblock_of s count r c }
{
    let y = luma(s.ssy, r) / 16;
    let x = luma(s.ssx, c) / 16;
    let i = y * s.sbcols + x;
    let last = count - 1;
    i.min(last)
}

fn q_cell(sbq: &[u16], qindex: &mut [u16], s: QindexGrid, r: usize, c: usize)
    requires qfit { QFit s (length sbq.now) (length qindex.old) }
    requires r_lt_rows { (r < s.rows) × (c < s.cols) }
    ensures { qindex.new ≡ q_cell s sbq.now r c qindex.old }
{
    let i = superblock(s, sbq.len(), r, c);
    let at = r * s.cols + c;
    qindex[at] = sbq[i];
}

fn q_row(sbq: &[u16], qindex: &mut [u16], s: QindexGrid, r: usize)
    requires qfit { QFit s (length sbq.now) (length qindex.old) }
    requires r_lt_rows { r < s.rows }
    ensures { qindex.new ≡ q_row s sbq.now r qindex.old }
{
    let n = s.cols;
    for c in 0..n {
        q_cell(sbq, qindex, s, r, c);
    }
}

// The grid of settings and lists that the checks have passed.
pub fn qindex_grid(sbq: &[u16], qindex: &mut [u16], s: QindexGrid)
    requires { QFit s (length sbq.now) (length qindex.old) }
    ensures { qindex.new ≡ q_grid_of s sbq.now qindex.old }
{
    let n = s.rows;
    for r in 0..n {
        q_row(sbq, qindex, s, r);
    }
}

fn sizes_ok(s: QindexGrid) -> bool
    ensures { result ≡ all (cells_ok s.cols s.rows ∷ subsampling_ok s.ssx s.ssy ∷ in_range 1 128 s.sbcols ∷ []) }
{
    cells_ok(s.cols, s.rows) && subsampling_ok(s.ssx, s.ssy) && superblocks_ok(s.sbcols)
}

fn lists_ok(cells: usize, count: usize, n: usize) -> bool
    ensures { result ≡ all (leb 1 count ∷ leb cells n ∷ []) }
{
    1 <= count && cells <= n
}

// The checks, for lists of these lengths.
fn q_check(count: usize, n: usize, s: QindexGrid) -> Result<(), Refusal>
    ensures { QChecked s count n result }
{
    if !sizes_ok(s) {
        return Err(Refusal::Size);
    }
    if !lists_ok(s.rows * s.cols, count, n) {
        return Err(Refusal::Length);
    }
    Ok(())
}

// The qindex grid of any settings and lists, or why there is none.
pub fn build_qindex_grid(sbq: &[u16], qindex: &mut [u16], s: QindexGrid) -> Result<(), Refusal>
    ensures { (result ≡ q_grid_check s sbq.now qindex.old) × (qindex.new ≡ q_grid_after s sbq.now qindex.old) }
{
    q_check(sbq.len(), qindex.len(), s)?;
    qindex_grid(sbq, qindex, s);
    Ok(())
}
