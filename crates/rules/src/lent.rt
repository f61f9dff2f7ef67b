// How long the lists are that a frame is lent.

// The six lists of a grid that have an entry for each cell: two marks, two size indices, the qindex and the keep mark.
#[derive(Clone, Copy)]
pub struct GridLengths {
    pub vedge: usize,
    pub hedge: usize,
    pub sqw: usize,
    pub sqh: usize,
    pub qindex: usize,
    pub keep: usize,
}

// The planes, both grids, the superblocks' qindex entries and the leaf lists.
#[derive(Clone, Copy)]
pub struct FrameLengths {
    pub y: usize,
    pub u: usize,
    pub v: usize,
    pub luma: GridLengths,
    pub chroma: GridLengths,
    pub sbq: usize,
    pub leaves: usize,
    pub chromaleaves: usize,
    pub skips: usize,
}
