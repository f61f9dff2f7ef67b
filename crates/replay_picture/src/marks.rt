// The cells that a settings file keeps, as marks of luma and of chroma; its other lines are read as the program `filter` reads them, and used for nothing.
ghost use Rattle.std.specs.Prelude.{◌≤◌, length};

use pictures::shapes::{chroma_of, luma_of};
use pictures::{defaults, files};
use settings::file::Settings;
use settings::names::first_places;
use std::fs::File;
use std::rt::Files;
use streams::job::Picture;
use streams::kept::mark;
use streams::open::small;
use streams::say::{Answered, cannot};
use streams::take::{read_on, take};
use system::bytes::large_buffer;
use system::files::{Ends, Source, read_full};

// The marks of luma's cells and of chroma's.
#[derive(Drop)]
pub struct Marks<'a> {
    pub keep: &'a mut [u8],
    pub chromakeep: &'a mut [u8],
}

// Marks what a text keeps; an error after the answer that says what is wrong with it.
fn told(
    p: Picture<'_>,
    name: &[u8],
    text: &[u8],
    shorts: &mut [u16],
    marks: &mut Marks<'_>,
) -> Result<(), Answered>
    requires { 22526 ≤ length shorts.old }
{
    let mut numbers = defaults::numbers();
    let mut steps = [0u32; 352];
    let mut flags = [1u8; 12288];
    let mut offsets = [0i8; 384];
    let mut places = first_places(shorts.len());
    let mut lists = Settings {
        numbers: &mut numbers,
        shorts,
        steps: &mut steps,
        flags: &mut flags,
        offsets: &mut offsets,
        places: &mut places,
    };
    take(p.told, name, text, &mut lists)?;
    let h = p.h;
    mark(
        marks.keep,
        marks.chromakeep,
        shorts,
        &places,
        h,
        luma_of(h),
        chroma_of(h),
    );
    Ok(())
}

// By a text below 64 KiB.
fn light(p: Picture<'_>, name: &[u8], text: &[u8], marks: &mut Marks<'_>) -> Result<(), Answered> {
    let mut shorts = defaults::few_shorts();
    told(p, name, text, &mut shorts, marks)
}

// By any text, of which the front was read.
fn heavy(
    p: Picture<'_>,
    name: &[u8],
    file: &Source,
    front: &[u8],
    marks: &mut Marks<'_>,
) -> Result<(), Answered>
    requires { length front.now ≤ 65536 }
{
    let mut text = files::text_room();
    let n = read_on(file, front, &mut text);
    if n == 33554432 {
        return Err(cannot(
            p.told,
            name,
            b"expected settings of fewer than 33554432 bytes",
        ));
    }
    let mut shorts = defaults::shorts();
    told(p, name, &text[..n], &mut shorts, marks)
}

// By a text of which the front was read. `heavy` is called twice for the reason that `run` has.
fn sized(
    p: Picture<'_>,
    name: &[u8],
    file: &Source,
    front: &[u8],
    marks: &mut Marks<'_>,
) -> Result<(), Answered>
    requires { length front.now ≤ 65536 }
{
    if front.len() == 65536 {
        return heavy(p, name, file, front, marks);
    }
    if small(p.h) {
        return light(p, name, front, marks);
    }
    heavy(p, name, file, front, marks)
}

// Marks what a settings file keeps, and nothing where there is none; an error after the answer that says why not.
pub fn marked<R: Files<File = File>>(
    rt: &R,
    ends: Ends,
    p: Picture<'_>,
    settings: Option<&[u8]>,
    marks: &mut Marks<'_>,
) -> Result<(), Answered> {
    let Some(name) = settings else {
        return Ok(());
    };
    let Some(file) = files::open_in(rt, ends, name) else {
        return Err(cannot(p.told, name, b"the settings can't be read"));
    };
    let mut front = large_buffer();
    let n = read_full(&file, &mut front);
    sized(p, name, &file, &front[..n], marks)
}
