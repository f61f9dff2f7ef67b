// From the names of the files to the written frames and the answer.
ghost use Rattle.streams.specs.Shaped.{Shaped};

use crate::frame::{Again, next};
use crate::load::{Records, large_room, load, small_room};
use crate::marks::{Marks, marked};
use crate::say;
use by_settings::kept::{large_marks, small_marks};
use pictures::{files, planes};
use std::fs::File;
use std::rt::Files;
use streams::job::{Job, Picture};
use streams::open::{open, small};
use streams::planes::Planes;
use streams::say::{Answered, cannot, unwritten};
use system::files::{Ends, Target, is_watched, keep};

// The names of OUT, of the records, and of the settings' file.
#[derive(Clone, Copy)]
pub struct Names<'a> {
    pub out: &'a [u8],
    pub y: &'a [u8],
    pub u: Option<&'a [u8]>,
    pub v: Option<&'a [u8]>,
    pub settings: Option<&'a [u8]>,
}

// How many edges good records have: each begins with five bytes, and has ten for an edge.
fn edges_of(at: Records) -> usize {
    let n = at.v / 10;
    if at.chroma { n.saturating_sub(1) } else { n }
}

// The answer after the last frame, by whether OUT is kept.
fn closed(j: Job<'_>, at: Records, frames: usize) -> Result<(), Answered> {
    keep(j.to).map_err(|_| unwritten(j.told))?;
    say::replayed(j.told, j.name, j.h, frames, edges_of(at));
    Ok(())
}

// Every frame of the file, and then the answer. On a terminal the frames are counted.
fn frames(ends: Ends, frame: &mut Planes<'_>, r: Again<'_>, j: Job<'_>) -> Result<(), Answered>
    requires { Shaped j }
{
    let errors = Target::Errors(ends.errors);
    let shown = is_watched(ends);
    for k in 0..usize::MAX {
        say::count(&errors, k, shown);
        if !next(frame, r, j, k)? {
            return closed(j, r.at, k);
        }
    }
    Ok(())
}

// Why a small picture is not run: the answer said so, or its records want more room.
#[derive(Clone, Copy)]
enum NotRun {
    Answered,
    Room,
}

impl From<Answered> for NotRun {
    fn from(_a: Answered) -> NotRun {
        NotRun::Answered
    }
}

// A small picture.
fn light<R: Files<File = File>>(
    rt: &R,
    ends: Ends,
    p: Picture<'_>,
    names: Names<'_>,
) -> Result<(), NotRun> {
    let mut bytes = small_room();
    let at = load(rt, ends, p.told, names, &mut bytes)?;
    if at.v == 1048576 {
        return Err(NotRun::Room);
    }
    let mut keep = small_marks();
    let mut chromakeep = small_marks();
    let mut marks = Marks {
        keep: &mut keep,
        chromakeep: &mut chromakeep,
    };
    marked(rt, ends, p, names.settings, &mut marks)?;
    let mut y = planes::small_room();
    let mut u = planes::small_room();
    let mut v = planes::small_room();
    let mut frame = Planes {
        y: &mut y,
        u: &mut u,
        v: &mut v,
    };
    let r = Again {
        bytes: &bytes,
        at,
        keep: &keep,
        chromakeep: &chromakeep,
    };
    let to = files::open_out(rt, ends, names.out);
    frames(ends, &mut frame, r, p.job(&to))?;
    Ok(())
}

// Any picture.
fn heavy<R: Files<File = File>>(
    rt: &R,
    ends: Ends,
    p: Picture<'_>,
    names: Names<'_>,
) -> Result<(), Answered> {
    let mut bytes = large_room();
    let at = load(rt, ends, p.told, names, &mut bytes)?;
    if at.v == 67108864 {
        return Err(cannot(
            p.told,
            names.y,
            b"expected records of fewer than 67108864 bytes in all planes",
        ));
    }
    let mut keep = large_marks();
    let mut chromakeep = large_marks();
    let mut marks = Marks {
        keep: &mut keep,
        chromakeep: &mut chromakeep,
    };
    marked(rt, ends, p, names.settings, &mut marks)?;
    let mut y = planes::large_room();
    let mut u = planes::large_room();
    let mut v = planes::large_room();
    let mut frame = Planes {
        y: &mut y,
        u: &mut u,
        v: &mut v,
    };
    let r = Again {
        bytes: &bytes,
        at,
        keep: &keep,
        chromakeep: &chromakeep,
    };
    let to = files::open_out(rt, ends, names.out);
    frames(ends, &mut frame, r, p.job(&to))
}

// By the picture's size. `heavy` is called twice so that the compiler leaves it a function of its own, whose lists a small picture never touches.
fn sized<R: Files<File = File>>(
    rt: &R,
    ends: Ends,
    p: Picture<'_>,
    names: Names<'_>,
) -> Result<(), Answered> {
    if !small(p.h) {
        return heavy(rt, ends, p, names);
    }
    match light(rt, ends, p, names) {
        Ok(()) => Ok(()),
        Err(NotRun::Answered) => Err(Answered),
        Err(NotRun::Room) => heavy(rt, ends, p, names),
    }
}

// That the picture has the planes of the records; else an error after the answer.
fn fits(p: Picture<'_>, u: Option<&[u8]>) -> Result<(), Answered> {
    let h = p.h;
    let layout = h.layout;
    match u {
        Some(name) if !layout.chroma => {
            Err(cannot(
                p.told,
                name,
                b"a record of chroma, and the picture has none",
            ))
        }
        _ => Ok(()),
    }
}

// The picture's header, and then the rest; an error after the answer that says why not.
pub fn run<R: Files<File = File>>(
    rt: &R,
    ends: Ends,
    told: &Target,
    name: &[u8],
    names: Names<'_>,
) -> Result<(), Answered> {
    let mut head = [0u8; 1024];
    let opened = open(rt, ends, told, name, &mut head)?;
    let n = opened.n;
    let p = Picture {
        name,
        from: &opened.from,
        told,
        head: &head[..n],
        h: opened.h,
    };
    fits(p, names.u)?;
    sized(rt, ends, p, names)
}
