// One frame: its line, its planes read, filtered and written, over lent planes.
ghost use Rattle.streams.specs.Shaped.{Shaped};

use crate::asked::Asked;
use crate::treat::treat;
use rules::counts::Counts;
use streams::changes::{changed, keep};
use streams::counts;
use streams::job::Job;
use streams::planes::Planes;
use streams::read::{next_mark, read_frame};
use streams::save::save;
use streams::say::Answered;

// How many samples are not as they were, and how many deblocking stored and changed.
#[derive(Clone, Copy)]
pub struct Told {
    pub changed: usize,
    pub counts: Counts,
}

// Of no frame.
pub fn nothing() -> Told {
    Told {
        changed: 0,
        counts: counts::none(),
    }
}

// Of two; it wraps at 2^64, which a thousand years of frames do not reach.
pub fn both(a: Told, b: Told) -> Told {
    Told {
        changed: a.changed.wrapping_add(b.changed),
        counts: counts::both(a.counts, b.counts),
    }
}

// Frame k, whose line was read, with a list that keeps the planes as they were, and one for luma before the offsets; an error after the answer that says why not.
fn work(
    frame: &mut Planes<'_>,
    was: &mut [u16],
    luma: &mut [u16],
    mark: &[u8],
    j: Job<'_>,
    k: usize,
    s: Asked<'_>,
) -> Result<Told, Answered>
    requires { Shaped j }
{
    read_frame(j, k, frame)?;
    keep(frame, was, j);
    let counts = treat(frame, luma, j, s)?;
    save(frame, mark, j, k)?;
    let changed = changed(frame, was, j);
    Ok(Told { changed, counts })
}

// Frame k of the file, where there is one; the first must be there. An error after the answer that says why not.
pub fn next(
    frame: &mut Planes<'_>,
    was: &mut [u16],
    luma: &mut [u16],
    j: Job<'_>,
    k: usize,
    s: Asked<'_>,
) -> Result<Option<Told>, Answered>
    requires { Shaped j }
{
    let mut mark = [0u8; 1024];
    let Some(n) = next_mark(j, k, &mut mark)? else {
        return Ok(None);
    };
    Ok(Some(work(frame, was, luma, &mark[..n], j, k, s)?))
}
