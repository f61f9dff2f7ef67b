// Ticket 1's entry: the plane's checks, the room of the record, and the run that writes it.
ghost use Rattle.std.specs.Prelude.{◌≡◌};
ghost use Rattle.rules.specs.Plane.{keeping};
ghost use Rattle.rules.specs.Record.{recorded_check};
ghost use Rattle.recorded.specs.Stated.{Stated};

use crate::count::edge_count;
use plane::{plane_check, run_noted};
use records::put_header;
use rules::counts::Visited;
use rules::refusals::Refusal;
use rules::settings::Plane;

// The first refusal of a plane whose record has a buffer of so many bytes, or none.
fn record_check(
    plane: &[u16],
    room: usize,
    vedge: &[u8],
    hedge: &[u8],
    sqw: &[u8],
    sqh: &[u8],
    qindex: &[u16],
    tiles: &[u16],
    keep: &[u8],
    steps: &[u32],
    s: Plane,
) -> Result<(), Refusal>
    ensures { result ≡ recorded_check s steps.now (keeping vedge.now hedge.now sqw.now sqh.now qindex.now tiles.now keep.now) plane.now room }
{
    plane_check(plane, vedge, hedge, sqw, sqh, qindex, tiles, keep, steps, s)?;
    if room < 5 + 10 * edge_count(vedge, hedge, s) {
        return Err(Refusal::Buffer);
    }
    Ok(())
}

// Deblocks a plane, writes the record of its edges, answers the record's length and tells how many samples were stored and changed; or refuses,
// leaves plane and record as lent and tells of none.
pub fn record_plane(
    plane: &mut [u16],
    buffer: &mut [u8],
    vedge: &[u8],
    hedge: &[u8],
    sqw: &[u8],
    sqh: &[u8],
    qindex: &[u16],
    tiles: &[u16],
    keep: &[u8],
    steps: &[u32],
    s: Plane,
) -> Result<Visited, Refusal>
    ensures { Stated s steps.now (keeping vedge.now hedge.now sqw.now sqh.now qindex.now tiles.now keep.now) plane.old buffer.old result plane.new buffer.new }
{
    let room = buffer.len();
    record_check(
        plane, room, vedge, hedge, sqw, sqh, qindex, tiles, keep, steps, s,
    )?;
    put_header(buffer);
    Ok(run_noted(
        plane, buffer, vedge, hedge, sqw, sqh, qindex, tiles, keep, steps, s,
    ))
}
