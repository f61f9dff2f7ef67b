// A kept rectangle's settings as a list of six numbers.
ghost use Rattle.std.specs.Prelude.{◌≡◌, ◌≤◌, length};
ghost use Rattle.by_list.specs.Rectangles.{rectangle_ok, rectangle_check};

use numbers::is_count;
use rules::refusals::Refusal;

// Whether none of the rectangle's own four numbers is negative.
fn rectangle_ok(settings: &[i32]) -> bool
    requires { 6 ≤ length settings.now }
    ensures { result ≡ rectangle_ok settings.now }
{
    if !is_count(settings, 2) {
        return false;
    }
    if !is_count(settings, 3) {
        return false;
    }
    if !is_count(settings, 4) {
        return false;
    }
    is_count(settings, 5)
}

// The first refusal that the list of settings itself gives: too few numbers, and then a negative row, column or size.
pub fn rectangle_check(settings: &[i32]) -> Result<(), Refusal>
    ensures { result ≡ rectangle_check settings.now }
{
    if settings.len() < 6 {
        return Err(Refusal::Length);
    }
    if !rectangle_ok(settings) {
        return Err(Refusal::Size);
    }
    Ok(())
}
