// Each depth as a type's constants, and the constants of a depth that is known only when the code runs.
ghost use Rattle.std.specs.Prelude.{◌≡◌, true};
ghost use Rattle.rules.specs.Numbers.{depth_ok, top_of, highest_of, offset_of, shift_of};

#[derive(Clone, Copy)]
pub struct Depth8;

impl Depth8 {
    pub const TOP: u16 = 255;

    pub const HIGHEST: u16 = 255;

    pub const OFFSET: u16 = 0;

    pub const SHIFT: u32 = 5;
}

#[derive(Clone, Copy)]
pub struct Depth10;

impl Depth10 {
    pub const TOP: u16 = 1023;

    pub const HIGHEST: u16 = 303;

    pub const OFFSET: u16 = 48;

    pub const SHIFT: u32 = 3;
}

#[derive(Clone, Copy)]
pub struct Depth12;

impl Depth12 {
    pub const TOP: u16 = 4095;

    pub const HIGHEST: u16 = 351;

    pub const OFFSET: u16 = 96;

    pub const SHIFT: u32 = 1;
}

// A depth of 8, 10 or 12 bits.
#[derive(Clone, Copy)]
pub struct Depth {
    pub bits: u32,
}

impl Depth {
    // Whether a number is a depth.
    pub fn is(bits: u32) -> bool
        ensures { result ≡ depth_ok bits }
    {
        match bits {
            8 => true,
            10 => true,
            12 => true,
            _ => false,
        }
    }

    // The largest sample.
    pub fn top(self) -> u16
        requires { depth_ok self.bits ≡ true }
        ensures { result ≡ top_of self.bits }
    {
        let bits = self.bits;
        match bits {
            8 => Depth8::TOP,
            10 => Depth10::TOP,
            _ => Depth12::TOP,
        }
    }

    // The highest qindex.
    pub fn highest(self) -> u16
        requires { depth_ok self.bits ≡ true }
        ensures { result ≡ highest_of self.bits }
    {
        let bits = self.bits;
        match bits {
            8 => Depth8::HIGHEST,
            10 => Depth10::HIGHEST,
            _ => Depth12::HIGHEST,
        }
    }

    // What is taken off an index before the side table is read.
    pub fn offset(self) -> u16
        requires { depth_ok self.bits ≡ true }
        ensures { result ≡ offset_of self.bits }
    {
        let bits = self.bits;
        match bits {
            8 => Depth8::OFFSET,
            10 => Depth10::OFFSET,
            _ => Depth12::OFFSET,
        }
    }

    // By how many bits a side threshold is brought down, 13 less the depth.
    pub fn shift(self) -> u32
        requires { depth_ok self.bits ≡ true }
        ensures { result ≡ shift_of self.bits }
    {
        let bits = self.bits;
        match bits {
            8 => Depth8::SHIFT,
            10 => Depth10::SHIFT,
            _ => Depth12::SHIFT,
        }
    }
}
