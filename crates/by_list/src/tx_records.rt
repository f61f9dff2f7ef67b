// A TU grid from leaf records, by its settings as a list of numbers: what comes before the grid is built, and what C is told after.
ghost use Rattle.std.specs.Prelude.{◌≡◌};
ghost use Rattle.answers.specs.Told.{Told};
ghost use Rattle.by_list.specs.Records.{tu_grid_read, long_enough};

use answers::told;
use numbers::tu_grid_of;
use rules::refusals::Refusal;
use rules::settings::TuGrid;

// The settings of a list that is long enough, and else ones that the grid refuses.
pub fn read(settings: &[i32]) -> TuGrid
    ensures { result ≡ tu_grid_read settings.now }
{
    if settings.len() < 6 {
        return TuGrid {
            cols: 0,
            rows: 0,
            ssx: 0,
            ssy: 0,
            capw: 0,
            caph: 0,
        };
    }
    tu_grid_of(settings)
}

// The grid's answer, where the settings' list had n numbers.
pub fn tell(a: Result<(), Refusal>, n: usize, place: &mut [usize]) -> i32
    ensures { Told (long_enough 6 n a) place.old result place.new }
{
    if n < 6 {
        return told(Err(Refusal::Length), place);
    }
    told(a, place)
}
