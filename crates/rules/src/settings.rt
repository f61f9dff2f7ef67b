// What each entry is told beside the lent lists. Any numbers: the checks say which are accepted.

// One segment alone: the plane's size in samples, the depth, and the edge.
#[derive(Clone, Copy)]
pub struct Lone {
    pub columns: usize,
    pub rows: usize,
    pub stride: usize,
    pub depth: u32,
    pub q: u32,
    pub side: u32,
    pub pair: usize,
    pub dir: usize,
    pub x: u16,
    pub y: u16,
}

// A plane: cells each way, stride, the size of the border test, superblock size in cells, and how it is filtered.
#[derive(Clone, Copy)]
pub struct Plane {
    pub cols: usize,
    pub rows: usize,
    pub stride: usize,
    pub width: usize,
    pub height: usize,
    pub sbw: usize,
    pub sbh: usize,
    pub chroma: bool,
    pub depth: u32,
    pub deltaq: i32,
    pub deltaside: i32,
}

// A record to be run again: the plane's cells each way, its stride and its depth.
#[derive(Clone, Copy)]
pub struct Replay {
    pub cols: usize,
    pub rows: usize,
    pub stride: usize,
    pub depth: u32,
}

// A TU grid: cells each way, subsampling, and the largest TU in cells.
#[derive(Clone, Copy)]
pub struct TuGrid {
    pub cols: usize,
    pub rows: usize,
    pub ssx: usize,
    pub ssy: usize,
    pub capw: usize,
    pub caph: usize,
}

// One leaf on a plane's cells, cut into TUs of tw by th cells.
#[derive(Clone, Copy)]
pub struct Tile {
    pub row: usize,
    pub col: usize,
    pub w: usize,
    pub h: usize,
    pub tw: usize,
    pub th: usize,
}

// A qindex grid: cells each way, subsampling, and superblocks across.
#[derive(Clone, Copy)]
pub struct QindexGrid {
    pub cols: usize,
    pub rows: usize,
    pub ssx: usize,
    pub ssy: usize,
    pub sbcols: usize,
}

// A rectangle of cells to be kept: the plane's cells each way, and the rectangle's first row and column and its rows and columns.
#[derive(Clone, Copy)]
pub struct Keep {
    pub cols: usize,
    pub rows: usize,
    pub row: usize,
    pub col: usize,
    pub h: usize,
    pub w: usize,
}

// A whole frame: the luma size, subsampling, strides, depth, deltas and caps.
#[derive(Clone, Copy)]
pub struct Frame {
    pub width: usize,
    pub height: usize,
    pub ssx: usize,
    pub ssy: usize,
    pub haschroma: bool,
    pub chromadeblock: bool,
    pub depth: u32,
    pub deltay: i32,
    pub deltauv: i32,
    pub lumastride: usize,
    pub chromastride: usize,
    pub capw: usize,
    pub caph: usize,
    pub ccapw: usize,
    pub ccaph: usize,
}

// CCSO: the luma size, subsampling, depth, scale, both cuts, the class numbers below, within and above them, two taps and the band log2.
#[derive(Clone, Copy)]
pub struct Ccso {
    pub width: usize,
    pub height: usize,
    pub ssx: usize,
    pub ssy: usize,
    pub depth: u32,
    pub scale: u32,
    pub lo: i32,
    pub hi: i32,
    pub below: u32,
    pub within: u32,
    pub above: u32,
    pub dx0: i32,
    pub dy0: i32,
    pub dx1: i32,
    pub dy1: i32,
    pub bandlog: u32,
}
