// One frame: its line, its planes read, each run by its record, and written.
ghost use Rattle.std.specs.Prelude.{◌≡◌, length};
ghost use Rattle.rules.specs.Replay.{replay_after};
ghost use Rattle.streams.specs.Shaped.{Shaped};
ghost use Rattle.replay_picture.specs.Held.{Held};
ghost use Rattle.replay_picture.specs.Again.{settings_of};

use crate::load::Records;
use crate::say::refused;
use pictures::planes::Shape;
use replay::replay_plane;
use rules::settings::Replay;
use streams::job::Job;
use streams::planes::Planes;
use streams::read::{next_mark, read_frame};
use streams::save::{pack, save};
use streams::say::Answered;

// The records in one list, where each ends, and the marks of the cells that are kept.
#[derive(Clone, Copy)]
pub struct Again<'a> {
    pub bytes: &'a [u8],
    pub at: Records,
    pub keep: &'a [u8],
    pub chromakeep: &'a [u8],
    ghost held: { Held at (length bytes.now) },
}

// Plane p by its record and its keep marks, on the cells that were filtered; an error after the answer that says why not.
fn run_plane(
    j: Job<'_>,
    plane: &mut [u16],
    bytes: &[u8],
    keep: &[u8],
    s: Shape,
    p: usize,
) -> Result<(), Answered>
    ensures { plane.new ≡ replay_after (settings_of s j.entry.h.layout.depth) bytes.now keep.now plane.old }
{
    let h = j.h;
    let layout = h.layout;
    let a = replay_plane(
        plane,
        bytes,
        keep,
        Replay {
            cols: s.stride / 4,
            rows: s.rows / 4,
            stride: s.stride,
            depth: layout.depth,
        },
    );
    if let Err(r) = a {
        return Err(refused(j.told, p, r, s));
    }
    Ok(())
}

// The planes that have a record; an error after the answer that says why not.
fn run_planes(frame: &mut Planes<'_>, r: Again<'_>, j: Job<'_>) -> Result<(), Answered> {
    let at = r.at;
    run_plane(j, frame.y, &r.bytes[..at.y], r.keep, j.l, 0)?;
    if at.chroma {
        run_plane(j, frame.u, &r.bytes[at.y..at.u], r.chromakeep, j.c, 1)?;
        run_plane(j, frame.v, &r.bytes[at.u..at.v], r.chromakeep, j.c, 2)?;
    }
    Ok(())
}

// Frame k of the file, where there is one; the first must be there. Says whether there was one; an error after the answer that says why not.
pub fn next(frame: &mut Planes<'_>, r: Again<'_>, j: Job<'_>, k: usize) -> Result<bool, Answered>
    requires { Shaped j }
{
    let mut mark = [0u8; 1024];
    let Some(n) = next_mark(j, k, &mut mark)? else {
        return Ok(false);
    };
    read_frame(j, k, frame)?;
    run_planes(frame, r, j)?;
    pack(frame, j);
    save(frame, &mark[..n], j, k)?;
    Ok(true)
}
