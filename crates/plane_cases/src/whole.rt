// One plane: its samples, once for each engine, and what the stream says that it answers.
use crate::answered::same;
use cases::{Due, Line};
use plain::deblock_plane_plain;
use plane::deblock_plane;
use rows_cases::Grid;
use tally::Outcome;

// A plane after its grid: both engines' answers and their planes, held against the stream's.
pub fn replay(mut line: Line, g: Grid) -> Option<Outcome> {
    let mut samples = [0u16; 131072];
    let mut copied = [0u16; 131072];
    let lent = line;
    let plane = line.list(&mut samples);
    let again = &mut copied[..plane.len()];
    again.copy_from_slice(plane);
    let told = line.counted()?;
    let answer = deblock_plane(
        plane, g.vedge, g.hedge, g.sqw, g.sqh, g.qindex, g.tiles, g.keep, g.steps, g.s,
    );
    let plain = deblock_plane_plain(
        again, g.vedge, g.hedge, g.sqw, g.sqh, g.qindex, g.tiles, g.keep, g.steps, g.s,
    );
    let due = Due::new(told, lent, line);
    let same = same(answer, told) && same(plain, told) && due.only(plane) && due.only(again);
    Some(Outcome::new(told.number, same))
}
