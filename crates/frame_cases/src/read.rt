// A frame's settings and the lists that its call only reads, in the stream's order.
use cases::Line;
use rules::settings::Frame;

// Sizes are read past 32 bits: the stream has refused ones of that size.
pub fn settings(line: &mut Line) -> Option<Frame> {
    Some(Frame {
        width: line.large()?,
        height: line.large()?,
        ssx: line.large()?,
        ssy: line.large()?,
        haschroma: line.flag()?,
        chromadeblock: line.flag()?,
        depth: line.number()?,
        deltay: line.signed()?,
        deltauv: line.signed()?,
        lumastride: line.large()?,
        chromastride: line.large()?,
        capw: line.large()?,
        caph: line.large()?,
        ccapw: line.large()?,
        ccaph: line.large()?,
    })
}

// The settings, the step table, the qindex of superblocks, the leaves, the tile starts and the keep marks.
#[derive(Clone, Copy)]
pub struct Asked<'a> {
    pub f: Frame,
    pub steps: &'a [u32],
    pub sbq: &'a [u16],
    pub leaves: &'a [u16],
    pub chromaleaves: &'a [u16],
    pub skips: &'a [u16],
    pub tiles: &'a [u16],
    pub chromatiles: &'a [u16],
    pub keep: &'a [u8],
    pub chromakeep: &'a [u8],
}

// Past a list.
fn skip_list(line: &mut Line) -> Option<()> {
    for _ in 0..line.unsigned(131072)? {
        line.unsigned(65535)?;
    }
    Some(())
}

// Past the planes and both grids: three lists and twice five.
pub fn skip_lists(line: &mut Line) -> Option<()> {
    for _ in 0..13 {
        skip_list(line)?;
    }
    Some(())
}
