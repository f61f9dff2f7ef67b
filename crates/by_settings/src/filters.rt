// The filters' own settings, by a picture's header and the settings' numbers.
ghost use Rattle.std.specs.Prelude.{◌≡◌, ◌≤◌, eqb, length};
ghost use Rattle.laws.specs.Choose.{pick};
ghost use Rattle.by_settings.specs.Rooms.{numbers_room, frame_numbers};
ghost use Rattle.by_settings.specs.Numbers.{frame_asked, ccso_asked};

use crate::rooms::EACH;
use numbers::{count, number, size};
use rules::settings::{Ccso, Frame};
use y4m::header::Header;

// Where a frame's numbers stand: both deltas, luma's caps, chroma's, and whether chroma is deblocked.
const DELTAY: usize = 1;

const DELTAUV: usize = 2;

const CAPW: usize = 3;

const CAPH: usize = 4;

const CCAPW: usize = 5;

const CCAPH: usize = 6;

const CHROMA: usize = 7;

// The frame that a header and the settings' numbers describe.
pub fn frame_of(h: Header, numbers: &[i32], stride: usize, chromastride: usize) -> Frame
    requires { frame_numbers ≤ length numbers.now }
    ensures { result ≡ frame_asked h numbers.now stride chromastride }
{
    let l = h.layout;
    Frame {
        width: h.width,
        height: h.height,
        ssx: l.ssx,
        ssy: l.ssy,
        haschroma: l.chroma,
        chromadeblock: count(numbers, CHROMA) != 0,
        depth: l.depth,
        deltay: number(numbers, DELTAY),
        deltauv: number(numbers, DELTAUV),
        lumastride: stride,
        chromastride,
        capw: size(numbers, CAPW),
        caph: size(numbers, CAPH),
        ccapw: size(numbers, CCAPW),
        ccaph: size(numbers, CCAPH),
    }
}

// A plane's subsampling: luma has none.
fn subsampling(p: usize, ss: usize) -> usize
    ensures { result ≡ pick (eqb p 0) 0 ss }
{
    if p == 0 { 0 } else { ss }
}

// The CCSO settings of plane p: luma, U, V. Its numbers stand in the order of its setting.
pub fn ccso_of(f: Frame, numbers: &[i32], p: usize) -> Ccso
    requires { (p ≤ 2) × (numbers_room ≤ length numbers.now) }
    ensures { result ≡ ccso_asked f numbers.now p }
{
    let from = EACH + EACH * p;
    Ccso {
        width: f.width,
        height: f.height,
        ssx: subsampling(p, f.ssx),
        ssy: subsampling(p, f.ssy),
        depth: f.depth,
        scale: count(numbers, from),
        lo: number(numbers, from + 1),
        hi: number(numbers, from + 2),
        below: count(numbers, from + 3),
        within: count(numbers, from + 4),
        above: count(numbers, from + 5),
        dx0: number(numbers, from + 6),
        dy0: number(numbers, from + 7),
        dx1: number(numbers, from + 8),
        dy1: number(numbers, from + 9),
        bandlog: count(numbers, from + 10),
    }
}
