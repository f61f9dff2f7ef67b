// From the header and the settings to the last frame and the answer.
ghost use Rattle.std.specs.Prelude.{◌≤◌, length};
ghost use Rattle.frame_checks.specs.Settings.{Sized};
ghost use Rattle.settings.specs.Kinds.{number_or_none};
ghost use Rattle.streams.specs.Shaped.{Shaped};

use crate::asked::Asked;
use crate::one_frame::next;
use crate::say;
use by_settings::kept::large_marks;
use frame_by_settings::lists::deblock_asked;
use gridded::sizes::sized;
use pictures::planes::large_room;
use pictures::shapes::luma_of;
use pictures::{defaults, files};
use refused::frames::{deblocked, frame_by, starts_good};
use refused::inside::inside;
use rules::counts::Counts;
use rules::settings::Frame;
use settings::file::Settings;
use settings::kinds::Kind;
use settings::lines::lines_of;
use settings::names::first_places;
use std::fs::File;
use std::rt::Files;
use streams::counts::{both, none};
use streams::job::{Job, Picture};
use streams::kept::mark;
use streams::open::{open, small};
use streams::say::{Answered, cannot, unwritten};
use streams::take::{read_on, take};
use system::bytes::large_buffer;
use system::files::{Ends, Source, Target, answers, is_watched, keep, read_full};

// The answer after the last frame, by whether the output is kept whole.
fn closed(j: Job<'_>, frames: usize, counts: Counts) -> Result<(), Answered> {
    keep(j.to).map_err(|_| unwritten(j.told))?;
    say::filtered(j.told, j.h, frames, counts);
    Ok(())
}

// Every frame of the stream, and then the answer. On a terminal the frames are counted.
fn frames(plane: &mut [u16], s: Asked<'_>, f: Frame, j: Job<'_>, ends: Ends) -> Result<(), Answered>
    requires { Sized f × Shaped j }
{
    let shown = is_watched(ends);
    let errors = Target::Errors(ends.errors);
    let mut counts = none();
    for k in 0..usize::MAX {
        say::count(&errors, k, shown);
        let Some(more) = next(plane, s, f, j, k)? else {
            return closed(j, k, counts);
        };
        counts = both(counts, more);
    }
    Ok(())
}

// Tries the settings on a dark frame, which is refused for all that they can be refused for; an error after the answer that says why.
fn tried(plane: &mut [u16], s: Asked<'_>, f: Frame, j: Job<'_>) -> Result<(), Answered> {
    let mut u = large_room();
    let mut v = large_room();
    let mut keep = large_marks();
    let mut chromakeep = large_marks();
    mark(
        &mut keep,
        &mut chromakeep,
        s.shorts,
        s.places,
        j.h,
        j.l,
        j.c,
    );
    let o = deblock_asked(
        plane,
        &mut u,
        &mut v,
        s.shorts,
        s.steps,
        &keep,
        &chromakeep,
        s.places,
        f,
        false,
    );
    deblocked(j.told, o, f, starts_good(s.shorts, s.places, f), s.text)?;
    Ok(())
}

// The frames, by settings that a dark frame has tried.
fn begun(s: Asked<'_>, f: Frame, j: Job<'_>, ends: Ends) -> Result<(), Answered>
    requires { Shaped j }
{
    let mut plane = large_room();
    tried(&mut plane, s, f, j)?;
    if !sized(f) {
        return Ok(());
    }
    frames(&mut plane, s, f, j, ends)
}

// The kind of a line that asks for CCSO offsets, by the lines of each kind.
fn offsets_in(lines: &[usize; 24]) -> Option<Kind>
    ensures { number_or_none result ≤ 14 }
{
    if lines[12] != 0 {
        return Some(Kind::CcsoY);
    }
    if lines[13] != 0 {
        return Some(Kind::CcsoU);
    }
    if lines[14] != 0 {
        return Some(Kind::CcsoV);
    }
    None
}

// That a text asks for no CCSO offsets, whose taps reach rows to come; else an error after the answer.
fn alone(told: &Target, name: &[u8], text: &[u8]) -> Result<(), Answered> {
    let mut lines = [0usize; 24];
    lines_of(text, &mut lines);
    match offsets_in(&lines) {
        None => Ok(()),
        Some(kind) => Err(say::no_offsets(told, name, lines[usize::from(kind)], kind)),
    }
}

// What a settings text says, what the picture's size decides of it, and then the frames.
fn told(
    ends: Ends,
    p: Picture<'_>,
    name: &[u8],
    text: &[u8],
    shorts: &mut [u16],
) -> Result<(), Answered>
    requires { 24576 ≤ length shorts.old }
{
    let mut numbers = defaults::numbers();
    let mut steps = ac_steps::steps();
    let mut flags = [1u8; 12288];
    let mut offsets = [0i8; 384];
    let mut places = first_places(shorts.len());
    let mut lists = Settings {
        numbers: &mut numbers,
        shorts,
        steps: &mut steps,
        flags: &mut flags,
        offsets: &mut offsets,
        places: &mut places,
    };
    take(p.told, name, text, &mut lists)?;
    alone(p.told, name, text)?;
    let l = luma_of(p.h);
    defaults::complete(shorts, &mut places, l.width, l.height);
    if !inside(p.told, name, text, shorts, &places, l) {
        return Err(Answered);
    }
    let to = Target::Output(ends.output);
    let j = p.job(&to);
    let s = Asked {
        text,
        shorts,
        steps: &steps,
        places: &places,
    };
    begun(s, frame_by(j, &numbers), j, ends)
}

// By a text below 64 KiB.
fn light(ends: Ends, p: Picture<'_>, name: &[u8], text: &[u8]) -> Result<(), Answered> {
    let mut shorts = defaults::few_shorts();
    told(ends, p, name, text, &mut shorts)
}

// By any text, of which the front was read.
fn heavy(
    ends: Ends,
    p: Picture<'_>,
    name: &[u8],
    file: &Source,
    front: &[u8],
) -> Result<(), Answered>
    requires { length front.now ≤ 65536 }
{
    let mut text = files::text_room();
    let n = read_on(file, front, &mut text);
    if n == 33554432 {
        return Err(cannot(
            p.told,
            name,
            b"expected settings of fewer than 33554432 bytes",
        ));
    }
    let mut shorts = defaults::shorts();
    told(ends, p, name, &text[..n], &mut shorts)
}

// The settings' file, and then its text. `told` and `heavy` are called twice so that the compiler leaves each a function of its own, whose lists are touched only where they are wanted.
fn asked<R: Files<File = File>>(
    rt: &R,
    ends: Ends,
    p: Picture<'_>,
    name: &[u8],
) -> Result<(), Answered> {
    let Some(file) = files::open_in(rt, ends, name) else {
        return Err(cannot(p.told, name, b"the settings can't be read"));
    };
    let mut front = large_buffer();
    let n = read_full(&file, &mut front);
    if n == 65536 {
        heavy(ends, p, name, &file, &front)
    } else if small(p.h) {
        light(ends, p, name, &front[..n])
    } else {
        heavy(ends, p, name, &file, &front[..n])
    }
}

// The header, and then the rest; an error after the answer that says why not.
pub fn run<R: Files<File = File>>(rt: &R, ends: Ends, settings: &[u8]) -> Result<(), Answered> {
    let told = answers(rt, ends, b"-");
    let mut head = [0u8; 1024];
    let opened = open(rt, ends, &told, b"-", &mut head)?;
    let n = opened.n;
    let p = Picture {
        name: b"-",
        from: &opened.from,
        told: &told,
        head: &head[..n],
        h: opened.h,
    };
    asked(rt, ends, p, settings)
}
