// Both filters over the planes, and the answer that says why one refused.
ghost use Rattle.streams.specs.Shaped.{Shaped};

use crate::asked::Asked;
use by_settings::gated::{Applied, offset_planes};
use by_settings::places::at;
use frame_by_settings::lists::deblock_asked;
use pictures::planes::copy;
use refused::frames::{deblocked, frame_by, say_setting, starts_good};
use refused::say;
use rules::counts::Counts;
use rules::refusals::{Refusal, number, place};
use rules::settings::Frame;
use settings::kinds::Kind;
use streams::job::Job;
use streams::planes::Planes;
use streams::save::pack;
use streams::say::Answered;
use system::files::Target;

// The kind of a plane's CCSO line.
fn ccso_kind(plane: usize) -> Kind {
    match plane {
        0 => Kind::CcsoY,
        1 => Kind::CcsoU,
        _ => Kind::CcsoV,
    }
}

// The answer on a plane that was not offset, whose rows have so many samples.
fn say_plane(answer: &Target, r: Refusal, plane: usize, width: usize, f: Frame, text: &[u8]) {
    if number(r) == 5 {
        say_setting(answer, ccso_kind(plane), f, text);
    } else {
        say::refused(answer, r, at(plane, place(r), width), None);
    }
}

// Whether every plane was offset; else an error after the answer that says why not.
fn offset(j: Job<'_>, d: Applied, f: Frame, text: &[u8]) -> Result<(), Answered> {
    let Err(r) = d.answer else {
        return Ok(());
    };
    let plane = d.plane;
    let c = j.c;
    let samples = if plane == 0 { f.width } else { c.width };
    say_plane(j.told, r, plane, samples, f, text);
    Err(Answered)
}

// Deblocks the planes, packs them and applies the offsets by a copy of luma, and counts what deblocking stored and changed; an error after the answer that says why not.
pub fn treat(
    frame: &mut Planes<'_>,
    luma: &mut [u16],
    j: Job<'_>,
    s: Asked<'_>,
) -> Result<Counts, Answered>
    requires { Shaped j }
{
    let f = frame_by(j, s.numbers);
    let o = deblock_asked(
        frame.y,
        frame.u,
        frame.v,
        s.shorts,
        s.steps,
        s.keep,
        s.chromakeep,
        s.places,
        f,
        s.plain,
    );
    let counts = deblocked(j.told, o, f, starts_good(s.shorts, s.places, f), s.text)?;
    pack(frame, j);
    copy(&*frame.y, luma);
    let d = offset_planes(
        frame.y, frame.u, frame.v, luma, s.numbers, s.flags, s.offsets, s.places, f,
    );
    offset(j, d, f, s.text)?;
    Ok(counts)
}
