// A list of one entry for each kind of settings: how many it has, with the first one for none, and which is that of the steps.
pub const KINDS: usize = 24;

pub const STEPS: usize = 3;
