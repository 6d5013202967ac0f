// One item by value: every operation on its numbers.
ghost use Rattle.std.specs.Prelude.{◌≡◌};
ghost use Rattle.flex.specs.Flex.{clamp, hypothetical, inner_base, outer, factor, weight, inflexible, flexed};
ghost use Rattle.flex.specs.Flex.{freezes};

use crate::{Item, Share};
use grid::floats::{lower, raise};

impl Item {
    #[tactic(auto, unfolding(crate::specs::Flex::clamp))]
    pub fn clamped(self, x: f32) -> f32
        ensures { result ≡ clamp self x }
    {
        raise(raise(lower(x, self.maximum), self.minimum), self.edges)
    }

    pub fn hypothetical_size(self) -> f32
        ensures { result ≡ hypothetical self }
    {
        self.clamped(self.base)
    }

    fn inner_base(self) -> f32
        ensures { result ≡ inner_base self }
    {
        raise(self.base - self.edges, 0.0)
    }

    pub fn outer_size(self, size: f32) -> f32
        ensures { result ≡ outer self size }
    {
        size + (self.start + self.end)
    }

    pub fn factor(self, growing: bool) -> f32
        ensures { result ≡ factor growing self }
    {
        if growing { self.grow } else { self.shrink }
    }

    pub fn weight(self, growing: bool) -> f32
        ensures { result ≡ weight growing self }
    {
        if growing {
            return self.grow;
        }
        self.inner_base() * self.shrink
    }

    // Step 2: whether the item is frozen from the start.
    #[tactic(auto, unfolding(crate::specs::Flex::inflexible))]
    pub fn is_inflexible(self, growing: bool) -> bool
        ensures { result ≡ inflexible growing self }
    {
        let f = self.factor(growing);
        let size = self.hypothetical_size();
        if f == 0.0 {
            return true;
        }
        if growing {
            return size < self.base;
        }
        self.base < size
    }

    // Step 4c.
    #[tactic(auto, unfolding(crate::specs::Flex::flexed))]
    pub fn flexed_size(self, sh: Share) -> f32
        ensures { result ≡ flexed sh self }
    {
        if sh.free == 0.0 {
            return self.base;
        }
        if sh.weights == 0.0 {
            return self.base;
        }
        self.base + sh.free * (self.weight(sh.growing) / sh.weights)
    }
}

// Step 4e: whether an item is frozen, by the total of the violations and its own.
#[tactic(auto, unfolding(crate::specs::Flex::freezes))]
pub fn is_frozen(sum: f32, v: f32) -> bool
    ensures { result ≡ freezes sum v }
{
    if sum > 0.0 {
        return v > 0.0;
    }
    if sum < 0.0 {
        return v < 0.0;
    }
    true
}
