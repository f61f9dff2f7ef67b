// The records' files, one after the other in one list.
ghost use Rattle.std.specs.Prelude.{◌≤◌, length, IfOk};
ghost use Rattle.replay_picture.specs.Held.{Held};

use crate::run::Names;
use pictures::files::read_whole;
use std::fs::File;
use std::rt::Files;
use streams::say::{Answered, cannot};
use system::files::{Ends, Target};

// Whether chroma has records, and where luma's record ends in the list, U's and V's.
#[derive(Clone, Copy)]
pub struct Records {
    pub chroma: bool,
    pub y: usize,
    pub u: usize,
    pub v: usize,
}

// Room for the records of a picture of 512 by 512 at most.
pub fn small_room() -> [u8; 1048576] {
    [0; 1048576]
}

// Room for those of the largest.
pub fn large_room() -> [u8; 67108864] {
    [0; 67108864]
}

// A record into the list from a place on, and where it ends; an error after the answer where it can't be read.
fn add<R: Files<File = File>>(
    rt: &R,
    ends: Ends,
    told: &Target,
    name: &[u8],
    bytes: &mut [u8],
    from: usize,
) -> Result<usize, Answered>
    requires { from ≤ length bytes.old }
    ensures { IfOk result (λ end. (from ≤ end) × (end ≤ length bytes.new)) }
{
    match read_whole(rt, ends, name, &mut bytes[from..]) {
        Some(n) => Ok(from + n),
        None => Err(cannot(told, name, b"the record can't be read")),
    }
}

// The records by their names, where no name of U stands for no record of chroma. They fill the list where they don't fit. An error after the answer where one can't be read.
pub fn load<R: Files<File = File>>(
    rt: &R,
    ends: Ends,
    told: &Target,
    names: Names<'_>,
    bytes: &mut [u8],
) -> Result<Records, Answered>
    ensures { IfOk result (λ r. Held r (length bytes.new)) }
{
    let y = add(rt, ends, told, names.y, bytes, 0)?;
    let Some(name) = names.u else {
        return Ok(Records {
            chroma: false,
            y,
            u: y,
            v: y,
        });
    };
    let b = add(rt, ends, told, name, bytes, y);
    let u = b.unwrap_or(y);
    let v = add(rt, ends, told, names.v.unwrap_or(b""), bytes, u)?;
    b?;
    Ok(Records {
        chroma: true,
        y,
        u,
        v,
    })
}
