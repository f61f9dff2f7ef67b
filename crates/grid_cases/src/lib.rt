// The cases of grids: TU grids, qindex grids and keep marks over rectangles, and whether answer and lists are the line's.
#![tactic(auto)]

// One TU grid.
mod tx;

// One qindex grid.
mod levels;

// Keep marks over one rectangle.
mod kept;

// A line of any kind.
mod case;

pub use case::replay;
