// Whole numbers as differences of two counts: how the code holds them, and where a signed input crosses over.
ghost use Rattle.std.specs.Prelude.{◌≡◌};
ghost use Rattle.laws.specs.Whole.{over, under};

// A whole number, up - down.
#[derive(Clone, Copy)]
pub struct Gap {
    pub up: u32,
    pub down: u32,
}

// What a signed number has above 0 and below it.
impl From<i32> for Gap {
    ghost from_gives = { λ v gap. (gap.up ≡ over v) × (gap.down ≡ under v) };

    fn from(v: i32) -> Gap {
        let size = v.unsigned_abs();
        if v < 0 {
            Gap { up: 0, down: size }
        } else {
            Gap { up: size, down: 0 }
        }
    }
}
