// The container's cross axis: its inner size, and the bounds on it.
ghost use Rattle.std.specs.Prelude.{◌≡◌};
ghost use Rattle.place_size.specs.Container.{read_cross, bounded, inner_size, or_bounded};

use keywords::{Wrap, lower_to, raise_to, read_bound};

// The container's cross axis: the inner size where it is definite, the bounds on it, and the gap between lines.
#[derive(Clone, Copy)]
pub struct Cross {
    pub inner: Option<f32>,
    pub minimum: Option<f32>,
    pub maximum: Option<f32>,
    pub gap: f32,
    pub wrap: Wrap,
}

// The container's numbers as they are used: -0.0 reads as 0.
#[tactic(auto, unfolding(crate::specs::Container::read_cross))]
pub fn read_cross(c: Cross) -> Cross
    ensures { result ≡ read_cross c }
{
    Cross {
        inner: read_bound(c.inner),
        minimum: read_bound(c.minimum),
        maximum: read_bound(c.maximum),
        gap: grid::clean(c.gap),
        wrap: c.wrap,
    }
}

// A size held to the container's bounds: the minimum wins.
#[tactic(auto, unfolding(crate::specs::Container::bounded))]
pub fn hold(c: Cross, x: f32) -> f32
    ensures { result ≡ bounded c x }
{
    raise_to(c.minimum, lower_to(c.maximum, x))
}

// The inner size, clamped where it is given.
pub fn inner_size(c: Cross) -> Option<f32>
    ensures { result ≡ inner_size c }
{
    c.inner.map(|x| hold(c, x))
}

// The inner size where it is definite, else x clamped.
pub fn inner_or(c: Cross, x: f32) -> f32
    ensures { result ≡ or_bounded c (inner_size c) x }
{
    inner_size(c).unwrap_or_else(|| hold(c, x))
}
