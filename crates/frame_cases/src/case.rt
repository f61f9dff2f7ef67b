// One frame of the stream: its lists are read in the line's order, the entry is called, and all is held against the line.
use crate::lists::{Grid, Planes};
use crate::read;
use crate::read::Asked;
use cases::{Due, Line, read_leaves};
use frame::frame::deblock_frame;
use tally::Outcome;
use text::Answered;

// Whether the entry's answer and both counts are the stream's.
fn answered(a: Asked, p: &mut Planes, l: &mut Grid, c: &mut Grid, told: Answered) -> bool {
    let answer = deblock_frame(
        p.y,
        p.u,
        p.v,
        l.vedge,
        l.hedge,
        l.sqw,
        l.sqh,
        l.qindex,
        c.vedge,
        c.hedge,
        c.sqw,
        c.sqh,
        c.qindex,
        a.steps,
        a.sbq,
        a.leaves,
        a.chromaleaves,
        a.skips,
        a.tiles,
        a.chromatiles,
        a.keep,
        a.chromakeep,
        a.f,
        false,
    );
    tally::same_counted(answer, told.number, told.place, told.stored, told.changed)
}

// Whether every list is the line's. The planes are new only in an accepted case; the grids follow them, but where 7 or 8 refused the new ones stand after the answer.
fn left(told: Answered, due: Due, after: Line, p: &Planes, l: &Grid, c: &Grid) -> bool {
    let mut planes = due;
    if !p.are(&mut planes) {
        return false;
    }
    let mut grids = match told.number {
        7 | 8 => Due::printed(after),
        _ => planes,
    };
    l.is(&mut grids) && c.is(&mut grids) && grids.ended()
}

// Whether the answer and the lists that a call may change, which are read here, are the line's.
fn same(a: Asked, lent: Line, after: Line, told: Answered) -> bool {
    let mut y = [0u16; 131072];
    let mut u = [0u16; 131072];
    let mut v = [0u16; 131072];
    let mut lv = [0u8; 16384];
    let mut lh = [0u8; 16384];
    let mut lw = [0u8; 16384];
    let mut lt = [0u8; 16384];
    let mut lq = [0u16; 16384];
    let mut cv = [0u8; 16384];
    let mut ch = [0u8; 16384];
    let mut cw = [0u8; 16384];
    let mut ct = [0u8; 16384];
    let mut cq = [0u16; 16384];
    let mut line = lent;
    let mut p = Planes::read(&mut line, &mut y, &mut u, &mut v);
    let mut l = Grid::read(&mut line, &mut lv, &mut lh, &mut lw, &mut lt, &mut lq);
    let mut c = Grid::read(&mut line, &mut cv, &mut ch, &mut cw, &mut ct, &mut cq);
    answered(a, &mut p, &mut l, &mut c, told)
        && left(told, Due::new(told, lent, after), after, &p, &l, &c)
}

// A line, of the one kind 2: with the qindex of superblocks and the leaves. The tile starts, the keep marks and the answer stand after the planes and both grids.
pub fn replay(mut line: Line, steps: &[u32]) -> Option<Outcome> {
    if line.unsigned(2)? != 2 {
        return None;
    }
    let mut sbq = [0u16; 4096];
    let mut leaves = [0u16; 32768];
    let mut chromaleaves = [0u16; 32768];
    let mut skips = [0u16; 32768];
    let mut tiles = [0u16; 2048];
    let mut chromatiles = [0u16; 2048];
    let mut keep = [0u8; 16384];
    let mut chromakeep = [0u8; 16384];
    let f = read::settings(&mut line)?;
    let sbq = line.list(&mut sbq);
    let leaves = read_leaves(&mut line, &mut leaves);
    let chromaleaves = read_leaves(&mut line, &mut chromaleaves);
    let skips = read_leaves(&mut line, &mut skips);
    let lent = line;
    read::skip_lists(&mut line)?;
    let asked = Asked {
        f,
        steps,
        sbq,
        leaves,
        chromaleaves,
        skips,
        tiles: line.list(&mut tiles),
        chromatiles: line.list(&mut chromatiles),
        keep: line.list(&mut keep),
        chromakeep: line.list(&mut chromakeep),
    };
    let told = line.counted()?;
    Some(Outcome::new(told.number, same(asked, lent, line, told)))
}
