// What deblocking stored and changed, added up over planes and frames.
use rules::counts::Counts;

// No sample.
pub fn none() -> Counts {
    Counts {
        stored: 0,
        changed: 0,
    }
}

// Both counts together; they wrap at 2^64, which a thousand years of frames do not reach.
pub fn both(a: Counts, b: Counts) -> Counts {
    Counts {
        stored: a.stored.wrapping_add(b.stored),
        changed: a.changed.wrapping_add(b.changed),
    }
}
