// Document 01's refusals and those of the tickets, as named cases; specs/Refusals.antt gives each its number and place.
ghost use Rattle.std.specs.Prelude.{◌≡◌};
ghost use Rattle.rules.specs.Refusals.{number_of, place_refused};

// Why an input is refused; a place counts from 0.
#[derive(Clone, Copy)]
pub enum Refusal {
    Depth,
    Size,
    Length,
    Steps(usize),
    Setting,
    Cell(usize),
    Room(usize),
    Sample(usize),
    Leaf(usize),
    Buffer,
    Header,
    Cut(usize),
    Entry(usize),
    Filled,
    Spent,
}

// Both thresholds of an edge.
#[derive(Clone, Copy)]
pub struct Thresholds {
    pub q: u32,
    pub side: u32,
}

// How many samples after a lone segment's edge were filtered, how many were stored on both sides, and how many of those differ from before.
#[derive(Clone, Copy)]
pub struct Filtered {
    pub width: usize,
    pub stored: usize,
    pub changed: usize,
}

// Document 01's number of a refusal.
pub fn number(r: Refusal) -> u32
    ensures { result ≡ number_of r }
{
    match r {
        Refusal::Depth => 1,
        Refusal::Size => 2,
        Refusal::Length => 3,
        Refusal::Steps(_) => 4,
        Refusal::Setting => 5,
        Refusal::Cell(_) => 6,
        Refusal::Room(_) => 7,
        Refusal::Sample(_) => 8,
        Refusal::Leaf(_) => 9,
        Refusal::Buffer => 10,
        Refusal::Header => 11,
        Refusal::Cut(_) => 12,
        Refusal::Entry(_) => 13,
        Refusal::Filled => 14,
        Refusal::Spent => 15,
    }
}

// Document 01's place of a refusal.
pub fn place(r: Refusal) -> usize
    ensures { result ≡ place_refused r }
{
    match r {
        Refusal::Steps(k) => k,
        Refusal::Cell(k) => k,
        Refusal::Room(k) => k,
        Refusal::Sample(k) => k,
        Refusal::Leaf(k) => k,
        Refusal::Cut(k) => k,
        Refusal::Entry(k) => k,
        Refusal::Depth => 0,
        Refusal::Size => 0,
        Refusal::Length => 0,
        Refusal::Setting => 0,
        Refusal::Buffer => 0,
        Refusal::Header => 0,
        Refusal::Filled => 0,
        Refusal::Spent => 0,
    }
}
