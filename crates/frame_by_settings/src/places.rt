// Where a frame was refused, by the lists that it was lent.
ghost use Rattle.std.specs.Prelude.{◌≡◌, List, ℕ, length};
ghost use Rattle.rules.specs.declared.refusals.Refusal.TheVariants.{Room};
ghost use Rattle.rules.specs.Refusals.{found};
ghost use Rattle.rules.specs.Plane.{no_room};
ghost use Rattle.rules.specs.Frame.{planes, given, luma_plane};
ghost use Rattle.frame_by_settings.specs.Deblocked.{LumaFit, luma_grid, room_place};
ghost use Rattle.frame_by_settings.specs.Framed.{refusal_place};

use crate::deblocking::{indices, marks};
use by_settings::places::{CHROMA, FRAME, LUMA, Place, STEPS, at, leaves_place, sample_place};
use frame_planes::build::build;
use frame_planes::late::room;
use rules::refusals::Refusal;
use rules::settings::Frame;

// Refusal 7 of luma alone, by a grid of its own.
fn luma_room(
    leaves: &[u16],
    skips: &[u16],
    sbq: &[u16],
    tiles: &[u16],
    f: Frame,
) -> Result<(), Refusal>
    requires { LumaFit f leaves.now skips.now (length sbq.now) }
    ensures { result ≡ found (no_room (luma_plane f) (luma_grid f leaves.now skips.now sbq.now tiles.now)) Room }
{
    let mut v = marks();
    let mut h = marks();
    let mut w = marks();
    let mut t = marks();
    let mut q = indices();
    build(
        &mut v, &mut h, &mut w, &mut t, &mut q, leaves, skips, sbq, f, false,
    );
    room(&v, &h, &w, &t, tiles, f, false)
}

// Where an edge lacks room: in luma where luma lacks it, else in chroma.
fn room_at(leaves: &[u16], skips: &[u16], sbq: &[u16], tiles: &[u16], f: Frame, k: usize) -> Place
    requires { LumaFit f leaves.now skips.now (length sbq.now) }
    ensures { result ≡ room_place f leaves.now skips.now sbq.now tiles.now k }
{
    let a = luma_room(leaves, skips, sbq, tiles, f);
    if let Err(_) = a {
        return at(LUMA, k, f.lumastride / 4);
    }
    at(CHROMA, k, f.chromastride / 4)
}

// Where a frame was refused, whatever its steps, V and chroma's tile starts.
pub fn place_of(
    r: Refusal,
    y: &[u16],
    u: &[u16],
    sbq: &[u16],
    leaves: &[u16],
    chromaleaves: &[u16],
    skips: &[u16],
    tiles: &[u16],
    f: Frame,
) -> Place
    requires { (k : ℕ) → r ≡ Room k → LumaFit f leaves.now skips.now (length sbq.now) }
    ensures { (s v : List ℕ) → result ≡ refusal_place f (given s sbq.now leaves.now chromaleaves.now skips.now) tiles.now (planes y.now u.now v) r }
{
    match r {
        Refusal::Sample(k) => sample_place(y, u, k, f),
        Refusal::Room(k) => room_at(leaves, skips, sbq, tiles, f, k),
        Refusal::Leaf(k) => leaves_place(leaves, chromaleaves, skips, k),
        Refusal::Steps(k) => at(STEPS, k, 0),
        Refusal::Depth => at(FRAME, 0, 0),
        Refusal::Size => at(FRAME, 0, 0),
        Refusal::Length => at(FRAME, 0, 0),
        Refusal::Setting => at(FRAME, 0, 0),
        Refusal::Cell(_) => at(FRAME, 0, 0),
        Refusal::Buffer => at(FRAME, 0, 0),
        Refusal::Header => at(FRAME, 0, 0),
        Refusal::Cut(_) => at(FRAME, 0, 0),
        Refusal::Entry(_) => at(FRAME, 0, 0),
        Refusal::Filled => at(FRAME, 0, 0),
        Refusal::Spent => at(FRAME, 0, 0),
    }
}
