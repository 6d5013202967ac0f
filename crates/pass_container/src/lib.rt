// The container of the whole pass, one struct by value, and the items' numbers in lists of n cells one after another.
#![tactic(auto)]

ghost use Rattle.std.specs.Prelude.{◌≡◌};
ghost use Rattle.pass_container.specs.Container.{cross_numbers_of};

use place_checks::numbers::CrossNumbers;

pub mod columns;
pub mod items;

pub use items::Items;

// The container's gaps, sizes, limit and keywords travel as one value, to every stage. The codes are those of the
// header.
#[repr(C)]
#[derive(Clone, Copy)]
pub struct Container {
    pub inner_main: f32,
    pub gap_main: f32,
    // 0 definite, 1 min-content, 2 max-content; the limit is read only under 0.
    pub limit_kind: u32,
    pub limit: f32,
    // Balanced breaking gives at least so many lines, as far as there are items.
    pub minimum_lines: u32,
    // 0 row, 1 row-reverse, 2 column, 3 column-reverse.
    pub direction: u32,
    // 0 nowrap, 1 wrap, 2 wrap-reverse, 3 balance, 4 balance-reverse.
    pub wrap: u32,
    pub justify_content: u32,
    pub align_content: u32,
    // Each is taken where its code is 1.
    pub inner_cross: f32,
    pub has_inner_cross: u32,
    pub minimum_cross: f32,
    pub has_minimum_cross: u32,
    pub maximum_cross: f32,
    pub has_maximum_cross: u32,
    pub gap_cross: f32,
}

// The cross axis of a container, wrap mode and all.
impl From<Container> for CrossNumbers {
    ghost from_gives = { λ c cross. cross ≡ cross_numbers_of c };

    fn from(c: Container) -> CrossNumbers {
        CrossNumbers {
            inner: c.inner_cross,
            has_inner: c.has_inner_cross,
            minimum: c.minimum_cross,
            has_minimum: c.has_minimum_cross,
            maximum: c.maximum_cross,
            has_maximum: c.has_maximum_cross,
            gap: c.gap_cross,
            wrap: c.wrap,
        }
    }
}
