// Document 01, refusal 5 of a frame: deltas and caps of both kinds of plane, also where chroma is not filtered.
ghost use Rattle.std.specs.Prelude.{◌≡◌, [], ◌∷◌};
ghost use Rattle.laws.specs.Choose.{all};
ghost use Rattle.rules.specs.Numbers.{delta_ok};
ghost use Rattle.rules.specs.TuGrid.{cap_ok};
ghost use Rattle.rules.specs.Frame.{frame_settings};

use rules::refusals::Refusal;
use rules::settings::Frame;
use thresholds::tests::delta_ok;
use tiles::tests::cap_ok;

// The delta and the caps of luma or of chroma.
fn kind_ok(delta: i32, capw: usize, caph: usize) -> bool
    ensures { result ≡ all (delta_ok delta ∷ cap_ok capw ∷ cap_ok caph ∷ []) }
{
    if !delta_ok(delta) {
        return false;
    }
    if !cap_ok(capw) {
        return false;
    }
    cap_ok(caph)
}

// Refusal 5.
pub fn frame_settings(f: Frame) -> Result<(), Refusal>
    ensures { result ≡ frame_settings f }
{
    if !kind_ok(f.deltay, f.capw, f.caph) {
        return Err(Refusal::Setting);
    }
    if !kind_ok(f.deltauv, f.ccapw, f.ccaph) {
        return Err(Refusal::Setting);
    }
    Ok(())
}
