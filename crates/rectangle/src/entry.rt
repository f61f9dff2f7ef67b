// The entry: the checks in their order 2, 3, 6, then the marks of the rectangle.
ghost use Rattle.std.specs.Prelude.{◌≡◌};
ghost use Rattle.rules.specs.Keep.{keep_check};
ghost use Rattle.rectangle.specs.Stated.{Stated};

use crate::cut::set_rectangle;
use checks::bad_keep;
use rules::refusals::Refusal;
use rules::settings::Keep;
use tiles::tests::cells_ok;

// The first refusal, or none.
fn keep_check(keep: &[u8], s: Keep) -> Result<(), Refusal>
    ensures { result ≡ keep_check s keep.now }
{
    if !cells_ok(s.cols, s.rows) {
        return Err(Refusal::Size);
    }
    let n = s.rows * s.cols;
    if keep.len() < n {
        return Err(Refusal::Length);
    }
    if let Some(k) = bad_keep(keep, n) {
        return Err(Refusal::Cell(k));
    }
    Ok(())
}

// Marks every cell of the plane that lies in the rectangle as kept and leaves the others as they were; or refuses, and leaves all marks as lent.
pub fn keep_rectangle(keep: &mut [u8], s: Keep) -> Result<(), Refusal>
    ensures { Stated s keep.old result keep.new }
{
    keep_check(keep, s)?;
    set_rectangle(keep, s);
    Ok(())
}
