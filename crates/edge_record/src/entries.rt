// The record of a picture's luma or chroma, by the frame and the settings' own lists.
ghost use Rattle.std.specs.Prelude.{◌≡◌, length};
ghost use Rattle.rules.specs.Refusals.{length_told};
ghost use Rattle.frame_checks.specs.Settings.{Sized};
ghost use Rattle.frame_by_settings.specs.Framed.{ListsLong, given_asked, starts_asked};
ghost use Rattle.edge_record.specs.Noted.{dark, grid_by, bytes_of, Noted, NotedBy};

use by_settings::lists::{lists_of, steps_of};
use frame_by_settings::deblocking::{indices, marks};
use frame_checks::parts::{plane_of, q_of, tu_of};
use grid::tx_grid::build_tx_grid;
use gridded::spans::{leaves_of, tiles_of};
use qindex::qindex_grid::build_qindex_grid;
use recorded::record_plane;
use rules::counts::Visited;
use rules::refusals::Refusal;
use rules::settings::{Frame, Plane, QindexGrid, TuGrid};

// Room for the record of every edge of the largest plane.
pub fn room() -> [u8; 20971525] {
    [0; 20971525]
}

// The largest plane, dark.
fn dark_plane() -> [u16; 16777216]
    ensures { result ≡ dark }
{
    [0; 16777216]
}

// A record's length, 0 where there is none.
fn bytes_of(a: Result<Visited, Refusal>) -> usize
    ensures { result ≡ bytes_of (length_told a) }
{
    match a {
        Ok(v) => v.bytes,
        Err(_) => 0,
    }
}

// The record of a dark plane without a kept cell, whose grid comes from leaves, superblocks and tile starts; how long it is, 0 where the plane is refused.
fn noted(
    buffer: &mut [u8],
    leaves: &[u16],
    skips: &[u16],
    sbq: &[u16],
    tiles: &[u16],
    steps: &[u32],
    s: Plane,
    t: TuGrid,
    q: QindexGrid,
) -> usize
    ensures { Noted s steps.now (grid_by t q leaves.now skips.now sbq.now tiles.now) buffer.old result buffer.new }
{
    let mut plane = dark_plane();
    let mut vedge = marks();
    let mut hedge = marks();
    let mut sqw = marks();
    let mut sqh = marks();
    let mut keep = marks();
    let mut qindex = indices();
    // a grid that is refused stays without an edge, and the plane's record says so
    let _ = build_tx_grid(
        leaves, skips, &mut vedge, &mut hedge, &mut sqw, &mut sqh, &mut keep, t,
    );
    let _ = build_qindex_grid(sbq, &mut qindex, q);
    let a = record_plane(
        &mut plane, buffer, &vedge, &hedge, &sqw, &sqh, &qindex, tiles, &keep, steps, s,
    );
    bytes_of(a)
}

// Luma's record, or chroma's; how long it is, 0 where there is none.
pub fn record_of(
    buffer: &mut [u8],
    shorts: &[u16],
    steps: &[u32],
    places: &[usize],
    f: Frame,
    chroma: bool,
) -> usize
    requires { ListsLong (length shorts.now) (length steps.now) (length places.now) × Sized f }
    ensures { NotedBy f chroma (given_asked shorts.now steps.now places.now) (starts_asked shorts.now places.now) buffer.old result buffer.new }
{
    let at = lists_of(places, shorts.len());
    let n = steps_of(places[3]);
    let q = at.entries;
    let leaves = leaves_of(at, chroma, shorts.len());
    let tiles = tiles_of(at, chroma, shorts.len());
    let a = leaves.from;
    let b = leaves.end;
    let e = at.skips;
    let g = at.skipsend;
    let h = tiles.from;
    let i = tiles.end;
    noted(
        buffer,
        &shorts[a..b],
        &shorts[e..g],
        &shorts[0..q],
        &shorts[h..i],
        &steps[0..n],
        plane_of(f, chroma),
        tu_of(f, chroma),
        q_of(f, chroma),
    )
}
