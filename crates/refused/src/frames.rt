// A frame that was refused: its settings, and the answer that says why and where.
ghost use Rattle.std.specs.Prelude.{length, ◌≤◌};
ghost use Rattle.by_settings.specs.Rooms.{kinds, fewest_shorts, frame_numbers};

use crate::say;
use by_settings::filters::frame_of;
use by_settings::kinds::KINDS;
use by_settings::lists::lists_of;
use by_settings::places;
use by_settings::places::Place;
use frame_by_settings::lists::Refused;
use plane_checks::starts::tiles_check;
use rules::counts::Counts;
use rules::refusals::{Refusal, number, place};
use rules::settings::Frame;
use settings::kinds::Kind;
use settings::lines::{line_with, lines_of};
use streams::job::Job;
use streams::say::Answered;
use system::files::Target;
use thresholds::tests::delta_ok;
use tiles::tests::cap_ok;

// The frame that the header and the settings describe.
pub fn frame_by(j: Job<'_>, numbers: &[i32]) -> Frame
    requires { frame_numbers ≤ length numbers.now }
{
    let l = j.l;
    let c = j.c;
    frame_of(j.h, numbers, l.stride, c.stride)
}

// Whether luma's tile starts are good.
pub fn starts_good(shorts: &[u16], places: &[usize], f: Frame) -> bool
    requires { (fewest_shorts ≤ length shorts.now) × (kinds ≤ length places.now) }
{
    let at = lists_of(places, shorts.len());
    let a = at.tiles;
    let b = at.tilesend;
    match tiles_check(&shorts[a..b], f.lumastride / 4) {
        Ok(()) => true,
        Err(_) => false,
    }
}

// Which setting of a frame is outside its range, where luma's tile starts are good or not: the kind of its line.
fn setting_of(f: Frame, starts: bool) -> Kind {
    if !delta_ok(f.deltay) {
        return Kind::DeltaY;
    }
    if !cap_ok(f.capw) || !cap_ok(f.caph) {
        return Kind::CapY;
    }
    if !delta_ok(f.deltauv) {
        return Kind::DeltaUv;
    }
    if !cap_ok(f.ccapw) || !cap_ok(f.ccaph) {
        return Kind::CapUv;
    }
    if starts { Kind::TilesUv } else { Kind::TilesY }
}

// A line, where there is one: lines count from 1.
fn line_or_none(line: usize) -> Option<usize> {
    if line == 0 { None } else { Some(line) }
}

// The answer on a setting outside its range, by its kind.
pub fn say_setting(told: &Target, kind: Kind, f: Frame, text: &[u8]) {
    let mut lines = [0usize; KINDS];
    lines_of(text, &mut lines);
    // keep marks have no range of their own: told are chroma's tile starts, the last that could be bad
    let kind = match kind {
        Kind::Keep => Kind::TilesUv,
        other => other,
    };
    let line = line_or_none(lines[usize::from(kind)]);
    match kind {
        Kind::TilesY => say::bad_tiles(told, kind, f.lumastride / 4, line),
        Kind::TilesUv => say::bad_tiles(told, kind, f.chromastride / 4, line),
        _ => say::out_of_range(told, kind, line),
    }
}

// The line of the settings that has number k of a list: a leaf's first number, or a step.
fn line_of(list: usize, k: usize, text: &[u8]) -> Option<usize> {
    // no list of leaves is as long
    if 1048576 <= k {
        return None;
    }
    match list {
        places::LEAVES => line_with(text, Kind::Leaf, 4 * k),
        places::CHROMA_LEAVES => line_with(text, Kind::LeafUv, 4 * k),
        places::SKIPS => line_with(text, Kind::Skip, 4 * k),
        places::STEPS => line_with(text, Kind::Steps, k),
        _ => None,
    }
}

// The answer on a frame that was refused.
fn say_refused(told: &Target, r: Refusal, at: Place, f: Frame, starts: bool, text: &[u8]) {
    if number(r) == 5 {
        say_setting(told, setting_of(f, starts), f, text);
    } else {
        say::refused(told, r, at, line_of(at.plane, place(r), text));
    }
}

// The counts of a frame that was deblocked; else an error after the answer that says why not.
pub fn deblocked(
    told: &Target,
    o: Result<Counts, Refused>,
    f: Frame,
    starts: bool,
    text: &[u8],
) -> Result<Counts, Answered> {
    match o {
        Ok(counts) => Ok(counts),
        Err(x) => {
            say_refused(told, x.refusal, x.place, f, starts, text);
            Err(Answered)
        }
    }
}
