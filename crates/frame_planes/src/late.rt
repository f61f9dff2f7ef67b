// Document 01's refusals 7 and 8 of a frame: room in the built grids, then samples, luma before chroma.
ghost use Rattle.std.specs.Prelude.{◌≡◌, true, false, List, ℕ, length};
ghost use Rattle.rules.specs.declared.refusals.Refusal.TheVariants.{Room, Sample};
ghost use Rattle.rules.specs.Refusals.{found, only_if};
ghost use Rattle.rules.specs.Plane.{keeping, no_room, over_plane};
ghost use Rattle.rules.specs.Frame.{planes, grids, chroma_on, frame_samples, frame_late};
ghost use Rattle.frame_checks.specs.Settings.{kind_on, plane_of};
ghost use Rattle.frame_planes.specs.Fit.{Sampled, Marked};

use frame_checks::parts::{kind_on, plane_of};
use plane_checks::room::no_room;
use plane_checks::samples::over_plane;
use rules::refusals::Refusal;
use rules::settings::Frame;

// Refusal 7 of one kind of plane where it is filtered, whatever the qindex and the keep marks.
pub fn room(
    vedge: &[u8],
    hedge: &[u8],
    sqw: &[u8],
    sqh: &[u8],
    tiles: &[u16],
    f: Frame,
    chroma: bool,
) -> Result<(), Refusal>
    requires { kind_on f chroma ≡ true → Marked f chroma vedge.now hedge.now sqw.now sqh.now }
    ensures { (q ks : List ℕ) → result ≡ only_if (kind_on f chroma) (found (no_room (plane_of f chroma) (keeping vedge.now hedge.now sqw.now sqh.now q tiles.now ks)) Room) }
{
    if !kind_on(f, chroma) {
        return Ok(());
    }
    let bad = no_room(vedge, hedge, sqw, sqh, tiles, plane_of(f, chroma));
    if let Some(k) = bad {
        return Err(Refusal::Room(k));
    }
    Ok(())
}

// Refusal 8 of one plane where it is filtered.
fn over(plane: &[u16], f: Frame, chroma: bool) -> Result<(), Refusal>
    requires { kind_on f chroma ≡ true → Sampled f chroma (length plane.now) }
    ensures { result ≡ only_if (kind_on f chroma) (found (over_plane (plane_of f chroma) plane.now) Sample) }
{
    if !kind_on(f, chroma) {
        return Ok(());
    }
    let bad = over_plane(plane, plane_of(f, chroma));
    if let Some(k) = bad {
        return Err(Refusal::Sample(k));
    }
    Ok(())
}

// Refusal 8 of luma, then of U and of V.
fn overs(y: &[u16], u: &[u16], v: &[u16], f: Frame) -> Result<(), Refusal>
    requires { Sampled f false (length y.now) × (chroma_on f ≡ true → Sampled f true (length u.now) × Sampled f true (length v.now)) }
    ensures { result ≡ frame_samples f (planes y.now u.now v.now) }
{
    over(y, f, false)?;
    over(u, f, true)?;
    over(v, f, true)
}

// Refusal 7 of luma and of chroma, then 8, whatever the qindex and the keep marks.
pub fn late(
    y: &[u16],
    u: &[u16],
    v: &[u16],
    lv: &[u8],
    lh: &[u8],
    lw: &[u8],
    lt: &[u8],
    ltiles: &[u16],
    cv: &[u8],
    ch: &[u8],
    cw: &[u8],
    ct: &[u8],
    ctiles: &[u16],
    f: Frame,
) -> Result<(), Refusal>
    requires sampled { Sampled f false (length y.now) × (chroma_on f ≡ true → Sampled f true (length u.now) × Sampled f true (length v.now)) }
    requires marked { Marked f false lv.now lh.now lw.now lt.now × (chroma_on f ≡ true → Marked f true cv.now ch.now cw.now ct.now) }
    ensures { (q d ks es : List ℕ) → result ≡ frame_late f
        (grids
        (keeping lv.now lh.now lw.now lt.now q ltiles.now ks)
        (keeping cv.now ch.now cw.now ct.now d ctiles.now es))
        (planes y.now u.now v.now) }
{
    room(lv, lh, lw, lt, ltiles, f, false)?;
    room(cv, ch, cw, ct, ctiles, f, true)?;
    overs(y, u, v, f)
}
