// From the names of the files to the written frames and the answer.
ghost use Rattle.std.specs.Prelude.{◌≤◌, length};
ghost use Rattle.streams.specs.Shaped.{Shaped};

use crate::asked::Asked;
use crate::one_frame::{Told, both, next, nothing};
use crate::say;
use by_settings::kept::{large_marks, small_marks};
use pictures::shapes::{chroma_of, luma_of};
use pictures::{defaults, files, planes};
use refused::inside::inside;
use settings::file::Settings;
use settings::names::first_places;
use std::fs::File;
use std::rt::{Env, Files};
use streams::changes;
use streams::job::{Job, Picture};
use streams::kept::mark;
use streams::open::{open, small};
use streams::planes::Planes;
use streams::say::{Answered, cannot, unwritten};
use streams::take::{read_on, take};
use system::bytes::{buffer, large_buffer};
use system::files::{Ends, Source, Target, is_watched, keep, read_full, word};

// The names of the settings' file and of OUT.
#[derive(Clone, Copy)]
pub struct Names<'a> {
    pub settings: &'a [u8],
    pub out: &'a [u8],
}

// The answer after the last frame, by whether all of OUT is kept.
fn closed(j: Job<'_>, frames: usize, told: Told) -> Result<(), Answered> {
    keep(j.to).map_err(|_| unwritten(j.told))?;
    say::filtered(j.told, j.name, j.h, frames, told);
    Ok(())
}

// Every frame of the file, and then the answer. On a terminal the frames are counted.
fn frames(
    ends: Ends,
    frame: &mut Planes<'_>,
    was: &mut [u16],
    luma: &mut [u16],
    j: Job<'_>,
    s: Asked<'_>,
) -> Result<(), Answered>
    requires { Shaped j }
{
    let shown = is_watched(ends);
    let mut told = nothing();
    for k in 0..usize::MAX {
        say::count(ends, k, shown);
        let Some(more) = next(frame, was, luma, j, k, s)? else {
            return closed(j, k, told);
        };
        told = both(told, more);
    }
    Ok(())
}

// Whether the plain engine is asked for, by the program's fourth word.
fn plain_asked<R: Env>(rt: &R) -> bool {
    word(rt, 4, &mut buffer()).is_some()
}

// What a settings text says, what the picture's size decides of it, and then the frames.
fn told<R: Files<File = File> + Env>(
    rt: &R,
    ends: Ends,
    p: Picture<'_>,
    names: Names<'_>,
    text: &[u8],
    frame: &mut Planes<'_>,
    was: &mut [u16],
    luma: &mut [u16],
    shorts: &mut [u16],
    keep: &mut [u8],
    chromakeep: &mut [u8],
) -> Result<(), Answered>
    requires { 24576 ≤ length shorts.old }
{
    let mut numbers = defaults::numbers();
    let mut steps = ac_steps::steps();
    let mut flags = [1u8; 12288];
    let mut offsets = [0i8; 384];
    let mut places = first_places(shorts.len());
    let mut lists = Settings {
        numbers: &mut numbers,
        shorts,
        steps: &mut steps,
        flags: &mut flags,
        offsets: &mut offsets,
        places: &mut places,
    };
    take(p.told, names.settings, text, &mut lists)?;
    let l = luma_of(p.h);
    defaults::complete(shorts, &mut places, l.width, l.height);
    if !inside(p.told, names.settings, text, shorts, &places, l) {
        return Err(Answered);
    }
    mark(keep, chromakeep, shorts, &places, p.h, l, chroma_of(p.h));
    let to = files::open_out(rt, ends, names.out);
    let s = Asked {
        text,
        numbers: &numbers,
        shorts,
        steps: &steps,
        flags: &flags,
        offsets: &offsets,
        places: &places,
        keep,
        chromakeep,
        plain: plain_asked(rt),
    };
    frames(ends, frame, was, luma, p.job(&to), s)
}

// A small picture, by a text that was read whole.
fn light<R: Files<File = File> + Env>(
    rt: &R,
    ends: Ends,
    p: Picture<'_>,
    names: Names<'_>,
    text: &[u8],
) -> Result<(), Answered> {
    let mut shorts = defaults::few_shorts();
    let mut y = planes::small_room();
    let mut u = planes::small_room();
    let mut v = planes::small_room();
    let mut was = changes::small_room();
    let mut luma = planes::small_room();
    let mut keep = small_marks();
    let mut chromakeep = small_marks();
    let mut frame = Planes {
        y: &mut y,
        u: &mut u,
        v: &mut v,
    };
    told(
        rt,
        ends,
        p,
        names,
        text,
        &mut frame,
        &mut was,
        &mut luma,
        &mut shorts,
        &mut keep,
        &mut chromakeep,
    )
}

// Any picture, by a text of which the front was read.
fn heavy<R: Files<File = File> + Env>(
    rt: &R,
    ends: Ends,
    p: Picture<'_>,
    names: Names<'_>,
    file: &Source,
    front: &[u8],
) -> Result<(), Answered>
    requires { length front.now ≤ 65536 }
{
    let mut text = files::text_room();
    let n = read_on(file, front, &mut text);
    if n == 33554432 {
        return Err(cannot(
            p.told,
            names.settings,
            b"expected settings of fewer than 33554432 bytes",
        ));
    }
    let mut shorts = defaults::shorts();
    let mut y = planes::large_room();
    let mut u = planes::large_room();
    let mut v = planes::large_room();
    let mut was = changes::large_room();
    let mut luma = planes::large_room();
    let mut keep = large_marks();
    let mut chromakeep = large_marks();
    let mut frame = Planes {
        y: &mut y,
        u: &mut u,
        v: &mut v,
    };
    told(
        rt,
        ends,
        p,
        names,
        &text[..n],
        &mut frame,
        &mut was,
        &mut luma,
        &mut shorts,
        &mut keep,
        &mut chromakeep,
    )
}

// The settings' file, and then what its text says. `heavy` is called twice so that the compiler leaves it a function of its own, whose lists a small picture never touches.
fn asked<R: Files<File = File> + Env>(
    rt: &R,
    ends: Ends,
    p: Picture<'_>,
    names: Names<'_>,
) -> Result<(), Answered> {
    let Some(file) = files::open_in(rt, ends, names.settings) else {
        return Err(cannot(p.told, names.settings, b"the settings can't be read"));
    };
    let mut front = large_buffer();
    let n = read_full(&file, &mut front);
    if n == 65536 {
        heavy(rt, ends, p, names, &file, &front)
    } else if small(p.h) {
        light(rt, ends, p, names, &front[..n])
    } else {
        heavy(rt, ends, p, names, &file, &front[..n])
    }
}

// The picture's header, and then the rest; an error after the answer that says why not.
pub fn run<R: Files<File = File> + Env>(
    rt: &R,
    ends: Ends,
    told: &Target,
    name: &[u8],
    names: Names<'_>,
) -> Result<(), Answered> {
    let mut head = [0u8; 1024];
    let opened = open(rt, ends, told, name, &mut head)?;
    let n = opened.n;
    let p = Picture {
        name,
        from: &opened.from,
        told,
        head: &head[..n],
        h: opened.h,
    };
    asked(rt, ends, p, names)
}
