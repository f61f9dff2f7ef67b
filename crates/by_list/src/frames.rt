// A frame's settings as a list of fifteen numbers.
ghost use Rattle.std.specs.Prelude.{◌≡◌, ◌≤◌, length};
ghost use Rattle.by_list.specs.Frames.{frame_settings, flags_ok, list_check};

use numbers::{count, flag, number, size};
use rules::depth::Depth;
use rules::refusals::Refusal;
use rules::settings::Frame;

// Whether has_chroma and chroma_deblock are 0 or 1.
fn flags_ok(list: &[i32]) -> bool
    requires { 15 ≤ length list.now }
    ensures { result ≡ flags_ok list.now }
{
    if 1 < count(list, 4) {
        return false;
    }
    count(list, 5) <= 1
}

// The first refusal that the list itself gives: too few numbers, and a flag that is none after the depth.
pub fn list_check(list: &[i32]) -> Result<(), Refusal>
    ensures { result ≡ list_check list.now }
{
    if list.len() < 15 {
        return Err(Refusal::Length);
    }
    if !Depth::is(count(list, 6)) {
        return Err(Refusal::Depth);
    }
    if !flags_ok(list) {
        return Err(Refusal::Size);
    }
    Ok(())
}

// The settings.
pub fn frame_of(list: &[i32]) -> Frame
    requires { 15 ≤ length list.now }
    ensures { result ≡ frame_settings list.now }
{
    Frame {
        width: size(list, 0),
        height: size(list, 1),
        ssx: size(list, 2),
        ssy: size(list, 3),
        haschroma: flag(list, 4),
        chromadeblock: flag(list, 5),
        depth: count(list, 6),
        deltay: number(list, 7),
        deltauv: number(list, 8),
        lumastride: size(list, 9),
        chromastride: size(list, 10),
        capw: size(list, 11),
        caph: size(list, 12),
        ccapw: size(list, 13),
        ccaph: size(list, 14),
    }
}
