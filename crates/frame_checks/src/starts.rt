// Document 02, ticket 5: refusal 5 of a frame's lists of tile starts, luma's and then, where chroma is filtered, chroma's.
ghost use Rattle.std.specs.Prelude.{◌≡◌};
ghost use Rattle.rules.specs.Refusals.{only_if};
ghost use Rattle.rules.specs.Plane.{tiles_check};
ghost use Rattle.rules.specs.Frame.{frame_tiles};
ghost use Rattle.frame_checks.specs.Settings.{Sized, kind_on, plane_of};

use super::parts::{kind_on, plane_of};
use plane_checks::starts::tiles_check;
use rules::refusals::Refusal;
use rules::settings::Frame;

// One list's refusal 5, where planes of its kind are filtered.
fn kind_tiles(tiles: &[u16], f: Frame, chroma: bool) -> Result<(), Refusal>
    requires { Sized f }
    ensures { result ≡ only_if (kind_on f chroma) (tiles_check (plane_of f chroma).cols tiles.now) }
{
    if !kind_on(f, chroma) {
        return Ok(());
    }
    let s = plane_of(f, chroma);
    tiles_check(tiles, s.cols)
}

// Refusal 5 of both lists.
pub fn frame_tiles(tiles: &[u16], chromatiles: &[u16], f: Frame) -> Result<(), Refusal>
    requires { Sized f }
    ensures { result ≡ frame_tiles f tiles.now chromatiles.now }
{
    kind_tiles(tiles, f, false)?;
    kind_tiles(chromatiles, f, true)
}
