// What the calls of the cross axis check: the container's numbers and a line's items, on any bits.
#![tactic(auto)]

pub mod numbers; // numbers.rt: the container's cross axis in numbers
pub mod marks; // marks.rt: what is checked of a line's items
