// What filtering counts; specs/Counts.antt says what.

// How many samples were stored, and how many of those differ from before.
#[derive(Clone, Copy)]
pub struct Counts {
    pub stored: usize,
    pub changed: usize,
}

// The same of a run that notes its edges, with the bytes that its record takes so far.
#[derive(Clone, Copy)]
pub struct Visited {
    pub bytes: usize,
    pub stored: usize,
    pub changed: usize,
}
