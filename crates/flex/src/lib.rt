// Flexible lengths, CSS-FLEX 9.7 (document 01, "Flexible lengths"): the definition, and every operation on numbers by
// value: of one item, and of a line. proofs/ has the definition's laws: the rounds end, there is one answer and there
// are answers, the sign of the free space, and sums that are whole sixty-fourths.
#![tactic(auto)]

pub mod items;
pub mod sharing;
pub mod sizes;

pub use items::ItemLists;

// An item as it is read: no number is -0.0, an auto margin is 0, and an absent maximum is infinite. A default one, of
// zeros, fills a table that is not read yet.
#[derive(Clone, Copy, Default)]
pub struct Item {
    pub base: f32,
    pub minimum: f32,
    pub maximum: f32,
    // Padding plus border.
    pub edges: f32,
    pub grow: f32,
    pub shrink: f32,
    pub start: f32,
    pub end: f32,
}

// What the rounds of a line go by: its inner size, gap and initial free space, and whether it grows, which chooses
// between an item's two factors: a `bool`, as in the definitions.
#[derive(Clone, Copy)]
pub struct Line {
    pub inner: f32,
    pub gap: f32,
    pub initial: f32,
    pub growing: bool,
}

// What a round shares out, and over what sum of weights. `growing` is as in `Line`.
#[derive(Clone, Copy)]
pub struct Share {
    pub growing: bool,
    pub free: f32,
    pub weights: f32,
}

// Of a line the outer sizes, and of its unfrozen items the factors, the weights and the number.
#[derive(Clone, Copy, Default)]
pub struct Sums {
    pub outer: f32,
    pub factors: f32,
    pub weights: f32,
    pub left: usize,
}
