// The kinds of settings, one for each name, and what a text should have said at a place.
ghost use Rattle.settings.specs.Kinds.{Numbers, number_of};

// In the order of their numbers: a list of one entry for each kind has a first one for none.
#[derive(Clone, Copy, PartialEq, Eq)]
pub enum Kind {
    Version = 1,
    Qindex,
    Steps,
    Leaf,
    LeafUv,
    Skip,
    DeltaY,
    DeltaUv,
    CapY,
    CapUv,
    Chroma,
    CcsoY,
    CcsoU,
    CcsoV,
    FlagsY,
    FlagsU,
    FlagsV,
    OffsetY,
    OffsetU,
    OffsetV,
    TilesY,
    TilesUv,
    Keep,
}

impl From<Kind> for usize {
    ghost use Rattle.std.specs.Prelude.{◌≡◌};

    ghost from_gives = { λ kind n. n ≡ number_of kind };

    fn from(kind: Kind) -> usize {
        kind as usize
    }
}

// A number that no kind has.
#[derive(Clone, Copy, PartialEq, Eq)]
pub struct NoKind(pub usize);

impl TryFrom<usize> for Kind {
    type Error = NoKind;

    ghost try_from_gives = { Numbers };

    fn try_from(n: usize) -> Result<Kind, NoKind> {
        match n {
            1 => Ok(Kind::Version),
            2 => Ok(Kind::Qindex),
            3 => Ok(Kind::Steps),
            4 => Ok(Kind::Leaf),
            5 => Ok(Kind::LeafUv),
            6 => Ok(Kind::Skip),
            7 => Ok(Kind::DeltaY),
            8 => Ok(Kind::DeltaUv),
            9 => Ok(Kind::CapY),
            10 => Ok(Kind::CapUv),
            11 => Ok(Kind::Chroma),
            12 => Ok(Kind::CcsoY),
            13 => Ok(Kind::CcsoU),
            14 => Ok(Kind::CcsoV),
            15 => Ok(Kind::FlagsY),
            16 => Ok(Kind::FlagsU),
            17 => Ok(Kind::FlagsV),
            18 => Ok(Kind::OffsetY),
            19 => Ok(Kind::OffsetU),
            20 => Ok(Kind::OffsetV),
            21 => Ok(Kind::TilesY),
            22 => Ok(Kind::TilesUv),
            23 => Ok(Kind::Keep),
            _ => Err(NoKind(n)),
        }
    }
}

// What a text should have said.
#[derive(Clone, Copy, PartialEq, Eq)]
pub enum Expected {
    // Any setting's name.
    Name,
    // A setting with the numbers that it has.
    Setting(Kind),
}
