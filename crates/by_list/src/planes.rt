// A plane's settings as a list of eleven numbers.
ghost use Rattle.std.specs.Prelude.{◌≡◌};
ghost use Rattle.by_list.specs.Planes.{list_check};

use numbers::count;
use rules::depth::Depth;
use rules::refusals::Refusal;

// The first refusal that the list of settings itself gives: too few numbers, and a flag that is none after the depth.
pub fn list_check(settings: &[i32]) -> Result<(), Refusal>
    ensures { result ≡ list_check settings.now }
{
    if settings.len() < 11 {
        return Err(Refusal::Length);
    }
    if !Depth::is(count(settings, 8)) {
        return Err(Refusal::Depth);
    }
    if 1 < count(settings, 7) {
        return Err(Refusal::Size);
    }
    Ok(())
}
