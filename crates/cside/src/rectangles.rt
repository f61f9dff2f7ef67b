// Keep marks over a rectangle of cells for C: the answer as a number, with the place of a refusal.
ghost use Rattle.by_list.specs.Rectangles.{RectangleTold};

use answers::told;
use by_list::rectangles::rectangle_check;
use numbers::rectangle_of;
use rectangle::keep_rectangle;

// 0, or minus the refusal number with its place in the first entry of `place`.
#[unsafe(no_mangle)]
pub extern "C" fn bihargesh_keep_rectangle(
    keep: &mut [u8],
    settings: &[i32],
    place: &mut [usize],
) -> i32
    ensures { RectangleTold settings.now keep.old place.old result keep.new place.new }
{
    let lists = rectangle_check(settings);
    if let Err(r) = lists {
        return told(Err(r), place);
    }
    let s = rectangle_of(settings);
    let a = keep_rectangle(keep, s);
    told(a, place)
}
