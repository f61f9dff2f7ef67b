// CCSO over a picture's planes, by the settings.
ghost use Rattle.std.specs.Prelude.{◌≡◌, ◌+◌, ◌≤◌, length};
ghost use Rattle.rules.specs.Frame.{planes};
ghost use Rattle.by_settings.specs.Rooms.{ccso_kind};
ghost use Rattle.by_settings.specs.Offsets.{OffsetsLong, asked, wanted, PlaneOffset, PlanesOffset};

use crate::filters::ccso_of;
use crate::rooms::{EACH, FLAGS, OFFSETS};
use ccso::apply::apply_edge_gated;
use rules::refusals::Refusal;
use rules::settings::Frame;
use settings::kinds::Kind;

// The plane that was refused, and the answer.
#[derive(Clone, Copy)]
pub struct Applied {
    pub plane: usize,
    pub answer: Result<(), Refusal>,
}

// Whether plane p is to be offset: the settings have its numbers, and the picture has the plane.
fn wants(f: Frame, places: &[usize], p: usize) -> bool
    requires { (p ≤ 2) × (ccso_kind 2 + 1 ≤ length places.now) }
    ensures { result ≡ wanted f places.now p }
{
    if places[Kind::CcsoY as usize + p] <= EACH + EACH * p {
        return false;
    }
    if p == 0 {
        return true;
    }
    f.haschroma
}

// Offsets plane p by luma, or refuses and leaves it as lent.
pub fn offset_plane(
    plane: &mut [u16],
    luma: &[u16],
    numbers: &[i32],
    flags: &[u8],
    offsets: &[i8],
    places: &[usize],
    p: usize,
    f: Frame,
) -> Result<(), Refusal>
    requires { (p ≤ 2) × OffsetsLong (length numbers.now) (length flags.now) (length offsets.now) (length places.now) }
    ensures { PlaneOffset f (asked numbers.now flags.now offsets.now places.now) luma.now p plane.old result plane.new }
{
    if !wants(f, places, p) {
        return Ok(());
    }
    let s = ccso_of(f, numbers, p);
    let a = FLAGS * p;
    let b = a + FLAGS;
    let c = OFFSETS * p;
    let d = c + OFFSETS;
    apply_edge_gated(luma, plane, &flags[a..b], &offsets[c..d], s)
}

// Offsets luma, U and V by luma as it was, up to the first that is refused.
pub fn offset_planes(
    y: &mut [u16],
    u: &mut [u16],
    v: &mut [u16],
    luma: &[u16],
    numbers: &[i32],
    flags: &[u8],
    offsets: &[i8],
    places: &[usize],
    f: Frame,
) -> Applied
    requires { OffsetsLong (length numbers.now) (length flags.now) (length offsets.now) (length places.now) }
    ensures { PlanesOffset f (asked numbers.now flags.now offsets.now places.now) luma.now (planes y.old u.old v.old) result (planes y.new u.new v.new) }
{
    let a = offset_plane(y, luma, numbers, flags, offsets, places, 0, f);
    if let Err(_) = a {
        return Applied {
            plane: 0,
            answer: a,
        };
    }
    let b = offset_plane(u, luma, numbers, flags, offsets, places, 1, f);
    if let Err(_) = b {
        return Applied {
            plane: 1,
            answer: b,
        };
    }
    Applied {
        plane: 2,
        answer: offset_plane(v, luma, numbers, flags, offsets, places, 2, f),
    }
}
