// Document 02, ticket 7: refusal 6 of a frame's keep marks, luma's and then, where chroma is filtered, chroma's.
ghost use Rattle.std.specs.Prelude.{◌≡◌, true, false, ◌*◌, length};
ghost use Rattle.rules.specs.declared.refusals.Refusal.TheVariants.{Cell};
ghost use Rattle.rules.specs.Refusals.{found, only_if};
ghost use Rattle.rules.specs.Plane.{bad_keep};
ghost use Rattle.rules.specs.Frame.{chroma_on, frame_keep};
ghost use Rattle.frame_checks.specs.Settings.{KeepLong, kind_on, plane_of};

use super::parts::{kind_on, plane_of};
use checks::bad_keep;
use rules::refusals::Refusal;
use rules::settings::Frame;

// One list's refusal 6, where planes of its kind are filtered.
fn kind_keep(keep: &[u8], f: Frame, chroma: bool) -> Result<(), Refusal>
    requires { kind_on f chroma ≡ true → KeepLong f chroma (length keep.now) }
    ensures { result ≡ only_if (kind_on f chroma) (found (bad_keep ((plane_of f chroma).rows * (plane_of f chroma).cols) keep.now) Cell) }
{
    if !kind_on(f, chroma) {
        return Ok(());
    }
    let s = plane_of(f, chroma);
    match bad_keep(keep, s.rows * s.cols) {
        Some(k) => Err(Refusal::Cell(k)),
        None => Ok(()),
    }
}

// Refusal 6 of both lists.
pub fn frame_keep(keep: &[u8], chromakeep: &[u8], f: Frame) -> Result<(), Refusal>
    requires { KeepLong f false (length keep.now) × (chroma_on f ≡ true → KeepLong f true (length chromakeep.now)) }
    ensures { result ≡ frame_keep f keep.now chromakeep.now }
{
    kind_keep(keep, f, false)?;
    kind_keep(chromakeep, f, true)
}
