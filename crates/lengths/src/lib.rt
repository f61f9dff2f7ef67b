// Document 01's "Lengths": which pair of lengths an edge has, what each pair allows, and whether an edge may be filtered at all.
#![tactic(auto)]

// The length ladder: size index, plane kind and shortening to a pair number.
pub mod ladder;

// The eight pairs: the most samples and the reach of each side.
pub mod pairs;

// Whether an edge's numbers are within their ranges.
pub mod ranges;

// Whether an edge has room.
pub mod room;
