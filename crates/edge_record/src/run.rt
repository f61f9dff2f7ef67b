// From the files to a written record and the outcome.
ghost use Rattle.std.specs.Prelude.{length};
ghost use Rattle.frame_checks.specs.Settings.{Sized};
ghost use Rattle.frame_by_settings.specs.Framed.{ListsLong};

use crate::entries::{record_of, room};
use by_settings::filters::frame_of;
use frame_checks::parts::kind_on;
use gridded::sizes::sized;
use pictures::shapes::{chroma_of, luma_of};
use pictures::{defaults, files};
use rules::settings::Frame;
use settings::file::{Settings, parse};
use settings::names::first_places;
use std::fs::File;
use std::io;
use std::rt::Files;
use system::files::{Ends, Target, keep, write_all};
use y4m::header::{Header, read_header};

// What came of a record: its planes are not deblocked, or it is written.
#[derive(Clone, Copy, PartialEq, Eq)]
pub enum Record {
    NotAsked,
    Written,
}

// Why there is none: there are no such files, or it could not be written.
#[derive(Clone, Copy, PartialEq, Eq)]
pub enum Fault {
    NoFiles,
    Unwritten,
}

impl From<io::Error> for Fault {
    fn from(_e: io::Error) -> Fault {
        Fault::Unwritten
    }
}

// Bytes to a file, and that all of them are kept there.
fn written(to: &Target, bytes: &[u8]) -> io::Result<()> {
    write_all(to, bytes)?;
    keep(to)
}

// Writes luma's record or chroma's, where its planes are deblocked.
fn recorded(
    shorts: &[u16],
    steps: &[u32],
    places: &[usize; 24],
    f: Frame,
    chroma: bool,
    to: &Target,
) -> Result<Record, Fault>
    requires { ListsLong (length shorts.now) (length steps.now) 24 × Sized f }
{
    if !kind_on(f, chroma) {
        return Ok(Record::NotAsked);
    }
    let mut buffer = room();
    let n = record_of(&mut buffer, shorts, steps, places, f, chroma);
    if n == 0 {
        return Err(Fault::NoFiles);
    }
    let Some(bytes) = buffer.get(..n) else {
        return Err(Fault::Unwritten);
    };
    written(to, bytes)?;
    Ok(Record::Written)
}

// What a settings text says of a picture, and then the record.
fn told(text: &[u8], h: Header, chroma: bool, to: &Target) -> Result<Record, Fault> {
    let mut numbers = defaults::numbers();
    let mut shorts = defaults::shorts();
    let mut steps = ac_steps::steps();
    let mut flags = [1u8; 12288];
    let mut offsets = [0i8; 384];
    let mut places = first_places(12605438);
    let mut s = Settings {
        numbers: &mut numbers,
        shorts: &mut shorts,
        steps: &mut steps,
        flags: &mut flags,
        offsets: &mut offsets,
        places: &mut places,
    };
    if parse(text, &mut s).is_err() {
        return Err(Fault::NoFiles);
    }
    let l = luma_of(h);
    let c = chroma_of(h);
    defaults::complete(&mut shorts, &mut places, l.width, l.height);
    let f = frame_of(h, &numbers, l.stride, c.stride);
    if !sized(f) {
        return Err(Fault::NoFiles);
    }
    recorded(&shorts, &steps, &places, f, chroma, to)
}

// The header of a picture's first line, where it is one.
fn header_of<R: Files<File = File>>(rt: &R, ends: Ends, picture: &[u8]) -> Option<Header> {
    let from = files::open_in(rt, ends, picture)?;
    let mut head = [0u8; 1024];
    let n = files::read_line(&from, &mut head).unwrap_or(0);
    if n == 0 {
        return None;
    }
    let h = read_header(&head, n);
    if h.opens { Some(h) } else { None }
}

// The picture's header, the settings' text, and then the rest.
pub fn run<R: Files<File = File>>(
    rt: &R,
    ends: Ends,
    picture: &[u8],
    settings: &[u8],
    chroma: bool,
    to: &Target,
) -> Result<Record, Fault> {
    let header = header_of(rt, ends, picture);
    let mut text = files::text_room();
    let n = files::read_whole(rt, ends, settings, &mut text).unwrap_or(0);
    let Some(h) = header else {
        return Err(Fault::NoFiles);
    };
    if n == 33554432 {
        return Err(Fault::NoFiles);
    }
    told(&text[..n], h, chroma, to)
}
