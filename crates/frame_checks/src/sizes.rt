// Document 01, refusal 2 of a frame: its size, subsampling and strides, luma before chroma.
ghost use Rattle.std.specs.Prelude.{◌≡◌, [], ◌∷◌};
ghost use Rattle.laws.specs.Choose.{all};
ghost use Rattle.rules.specs.Numbers.{in_range, subsampling_ok};
ghost use Rattle.rules.specs.Frame.{luma_plane, stride_ok, frame_sizes};
ghost use Rattle.frame_checks.specs.Settings.{Sized, plane_of};

use super::parts::{chroma_on, plane_of};
use checks::in_range;
use rules::refusals::Refusal;
use rules::settings::Frame;
use tiles::tests::subsampling_ok;

// A plane's stride.
fn stride_ok(f: Frame, chroma: bool) -> bool
    requires { Sized f }
    ensures { result ≡ stride_ok (plane_of f chroma) }
{
    let s = plane_of(f, chroma);
    in_range(4 * s.cols, 8192, s.stride)
}

// The size, the subsampling and luma's stride.
fn luma_ok(f: Frame) -> bool
    ensures { result ≡ all (in_range 1 4096 f.width ∷ in_range 1 4096 f.height ∷ subsampling_ok f.ssx f.ssy ∷ stride_ok (luma_plane f) ∷ []) }
{
    if !in_range(1, 4096, f.width) {
        return false;
    }
    if !in_range(1, 4096, f.height) {
        return false;
    }
    if !subsampling_ok(f.ssx, f.ssy) {
        return false;
    }
    stride_ok(f, false)
}

// Refusal 2.
pub fn frame_sizes(f: Frame) -> Result<(), Refusal>
    ensures { result ≡ frame_sizes f }
{
    if !luma_ok(f) {
        return Err(Refusal::Size);
    }
    if !chroma_on(f) {
        return Ok(());
    }
    if !stride_ok(f, true) {
        return Err(Refusal::Size);
    }
    Ok(())
}
