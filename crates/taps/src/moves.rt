// One sample moved by n/2048, n = D·W[s]·(s-i) given as a sign and a size: the code's form of rules' before and after. With it goes whether that
// changes it. And a pair of samples that one move takes, where no limit is met.
ghost use Rattle.std.specs.Prelude.{◌≡◌, ◌+◌, ◌-◌, ◌*◌, ◌≤◌, min, IfSome};
ghost use Rattle.laws.specs.Changes.{differ};
ghost use Rattle.taps.specs.Signed.{along, against, size_of, shift_of};

// A sample's new value, and 1 where it differs from the old.
#[derive(Clone, Copy)]
pub struct Moved {
    pub to: u16,
    pub changed: usize,
}

// A pair of samples that one move takes, one up and one down, with no limit met: both new values, and 1 where the move is not 0, which changes both.
#[derive(Clone, Copy)]
pub struct Pair {
    pub first: u16,
    pub second: u16,
    pub moved: usize,
}

// How the samples of a side are moved: the sign of D, the size of D times W, and the largest sample.
#[derive(Clone, Copy)]
pub struct Move {
    pub plus: bool,
    pub by: u32,
    pub top: u16,
    ghost by_most: { by ≤ 5570560 },
}

// x moved up or down by n, and limited.
fn shifted(x: u16, up: bool, n: u32, top: u16) -> Moved
    requires { n ≤ 30000 }
    ensures { (result.to ≡ shift_of top x up n) × (result.changed ≡ differ x result.to) × (result.changed ≤ 1) }
{
    let far = if up {
        x as u32 + n
    } else {
        (x as u32).saturating_sub(n)
    };
    let to = far.min(top as u32) as u16;
    Moved {
        to: to,
        changed: usize::from(x != to),
    }
}

// x raised and y lowered by n, where neither meets a limit; a sample that went below 0 has wrapped and lies above top.
fn unlimited(x: u16, y: u16, n: u32, top: u16) -> Option<(u16, u16)>
    requires { n ≤ 30000 }
    ensures { IfSome result (λ t. (t.0 ≡ min (x + n) top) × (t.1 ≡ min (y - n) top) × (differ x t.0 + differ y t.1 ≡ 2 * differ n 0)) }
{
    let up = x as u32 + n;
    let down = (y as u32).wrapping_sub(n);
    if up <= top as u32 && down <= top as u32 {
        Some((up as u16, down as u16))
    } else {
        None
    }
}

impl Move {
    // The size of the move of a sample whose place leaves k of its side's width, rounded: half a step up for a D above 0, a little less for one below.
    fn size(self, k: usize) -> u32
        requires { k ≤ 8 }
        ensures { (result ≡ size_of self.plus (self.by * k)) × (result ≤ 30000) }
    {
        let half = if self.plus { 1024 } else { 1023 };
        (half + self.by * (k as u32)) / 2048
    }

    // A sample before the edge goes with D.
    pub fn before(self, x: u16, k: usize) -> Moved
        requires { k ≤ 8 }
        ensures { (result.to ≡ along self.top x self.plus (self.by * k)) × (result.changed ≡ differ x result.to) × (result.changed ≤ 1) }
    {
        shifted(x, self.plus, self.size(k), self.top)
    }

    // A sample after the edge goes against it.
    pub fn after(self, x: u16, k: usize) -> Moved
        requires { k ≤ 8 }
        ensures { (result.to ≡ against self.top x self.plus (self.by * k)) × (result.changed ≡ differ x result.to) × (result.changed ≤ 1) }
    {
        shifted(x, !self.plus, self.size(k), self.top)
    }

    // The samples of a pair before and after the edge, where neither meets a limit.
    pub fn pair(self, x: u16, y: u16, k: usize) -> Option<Pair>
        requires { k ≤ 8 }
        ensures { IfSome result (λ t. (t.first ≡ along self.top x self.plus (self.by * k)) × (t.second ≡ against self.top y self.plus (self.by * k)) × (differ x t.first + differ y t.second ≡ 2 * t.moved) × (t.moved ≤ 1)) }
    {
        let n = self.size(k);
        let (first, second) = if self.plus {
            unlimited(x, y, n, self.top)?
        } else {
            let (raised, lowered) = unlimited(y, x, n, self.top)?;
            (lowered, raised)
        };
        Some(Pair {
            first: first,
            second: second,
            moved: usize::from(n != 0),
        })
    }
}
