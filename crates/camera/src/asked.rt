// What the settings ask for.
ghost use Rattle.std.specs.Prelude.{length};
ghost use Rattle.frame_by_settings.specs.Framed.{ListsLong};

// The settings' text and the lists of its numbers, each long enough.
#[derive(Clone, Copy)]
pub struct Asked<'a> {
    pub text: &'a [u8],
    pub shorts: &'a [u16],
    pub steps: &'a [u32],
    pub places: &'a [usize],
    ghost long: { ListsLong (length shorts.now) (length steps.now) (length places.now) },
}
