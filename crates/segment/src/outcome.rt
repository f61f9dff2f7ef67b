// What filtering an edge answers; specs/Fit.antt says what it holds.

// How many samples after the edge were filtered, how many were stored on both sides, and how many of those differ from before.
// The counts stand beside the width and not in a Counts: in it, every clause that speaks of one would only be longer.
#[derive(Clone, Copy)]
pub struct Outcome {
    pub width: usize,
    pub stored: usize,
    pub changed: usize,
}
