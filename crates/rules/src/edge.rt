// One edge of a plane, and what stands across it.

// An edge by document 01's six numbers: the place x, y of line 0's q0, the direction (0 vertical, 1 horizontal), the length pair, and both thresholds.
#[derive(Clone, Copy)]
pub struct Edge {
    pub x: usize,
    pub y: usize,
    pub dir: usize,
    pub pair: usize,
    pub q: u32,
    pub side: u32,
}

// The same edge by offsets: line 0's q0, the step from q0 to q1, and the step to the next line.
#[derive(Clone, Copy)]
pub struct Place {
    pub at: usize,
    pub step: usize,
    pub line: usize,
    pub pair: usize,
    pub q: u32,
    pub side: u32,
}

// A line's samples before the edge and after it, from the edge outwards.
#[derive(Clone, Copy)]
pub struct Line {
    pub p: [u16; 9],
    pub q: [u16; 9],
}
