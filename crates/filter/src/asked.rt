// What the settings ask for.
ghost use Rattle.std.specs.Prelude.{length};
ghost use Rattle.filter.specs.Lent.{Lent};

// The settings' text, the lists of its numbers, each long enough, the marks of the cells that are kept, and whether the plain engine is asked for.
#[derive(Clone, Copy)]
pub struct Asked<'a> {
    pub text: &'a [u8],
    pub numbers: &'a [i32],
    pub shorts: &'a [u16],
    pub steps: &'a [u32],
    pub flags: &'a [u8],
    pub offsets: &'a [i8],
    pub places: &'a [usize],
    pub keep: &'a [u8],
    pub chromakeep: &'a [u8],
    pub plain: bool,
    ghost long: { Lent (length numbers.now) (length shorts.now) (length steps.now) (length flags.now) (length offsets.now) (length places.now) },
}
