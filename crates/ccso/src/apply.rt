// The entry: the checks in their order, and then the run.
ghost use Rattle.std.specs.Prelude.{◌≡◌};
ghost use Rattle.ccso.specs.Stated.{Stated};

use crate::check::check;
use crate::rows::run;
use rules::refusals::Refusal;
use rules::settings::Ccso;

// The gated offsets of a target, or why it is refused and kept as lent.
pub fn apply_edge_gated(
    luma: &[u16],
    target: &mut [u16],
    flags: &[u8],
    offsets: &[i8],
    s: Ccso,
) -> Result<(), Refusal>
    ensures { Stated s luma.now flags.now offsets.now target.old result target.new }
{
    check(luma, target, flags, offsets, s)?;
    run(luma, target, flags, offsets, s);
    Ok(())
}
