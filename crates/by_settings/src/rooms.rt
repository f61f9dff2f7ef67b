// How many numbers each list of the settings holds.
ghost use Rattle.std.specs.Prelude.{◌≡◌, replicate};
ghost use Rattle.by_settings.specs.Rooms.{flags_room, offsets_room, planes_room};

// The places for a frame's signed numbers, and for those of each plane's CCSO settings.
pub const EACH: usize = 16;

// All of them.
pub const NUMBERS: usize = 4 * EACH;

// The qindex entries, one for each superblock.
pub const QINDEX: usize = 4096;

// The tile starts of luma, and of chroma.
pub const TILES: usize = 1023;

// The kept rectangles, four numbers each.
pub const KEEPS: usize = 16384;

// The steps.
pub const STEPS: usize = 352;

// The CCSO flags of a plane.
pub const FLAGS: usize = 4096;

// Its offsets.
pub const OFFSETS: usize = 128;

// The flags of luma, U and V.
pub const ALL_FLAGS: usize = 3 * FLAGS;

// Their offsets.
pub const ALL_OFFSETS: usize = 3 * OFFSETS;

// Flags that the settings do not have are 1.
pub fn flags() -> [u8; ALL_FLAGS]
    ensures { result ≡ replicate (planes_room flags_room) 1 }
{
    [1; ALL_FLAGS]
}

// Offsets that they do not have are 0.
pub fn offsets() -> [i8; ALL_OFFSETS] {
    [0; ALL_OFFSETS]
}
