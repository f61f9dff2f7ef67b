// Mathematics that knows nothing of pictures: the definitions and laws stand in specs/, a file a subject.
#![tactic(auto)]

// Whole numbers as differences of two counts.
mod whole;

pub use whole::Gap;
