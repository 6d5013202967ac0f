// A line by value: the way it flexes, the sums of a round, and what they leave to share out. No entry points: they ask
// for at most 1,024 items.
ghost use Rattle.std.specs.Prelude.{◌≡◌, ◌≤◌, pos};
ghost use Rattle.std.specs.Int.Signed.{lt_z};
ghost use Rattle.flex.specs.Flex.{magnitude, limited};
ghost use Rattle.flex.specs.Steps.{Added, space_left, share_of};

use crate::{Item, Line, Share, Sums};
use grid::floats::sum_axis_gaps;

// Step 1.
pub fn is_growing(free: grid::Sixtyfourths) -> bool
    ensures { result ≡ lt_z (pos 0) free.0 }
{
    free.0 > 0
}

// The space that the outer sizes of n items leave. No entry point.
pub fn space_left(inner: f32, gap: f32, n: usize, outer: f32) -> f32
    requires { n ≤ 1024 }
    ensures { result ≡ space_left inner gap n outer }
{
    inner - (sum_axis_gaps(gap, n) + outer)
}

impl Sums {
    // One item more. No entry point.
    pub fn add_up(self, it: Item, growing: bool, frozen: bool, target: f32) -> Sums
        requires { self.left ≤ 1024 }
        ensures { Added growing it frozen target self result }
    {
        if frozen {
            return Sums {
                outer: self.outer + it.outer_size(target),
                ..self
            };
        }
        Sums {
            outer: self.outer + it.outer_size(it.base),
            factors: self.factors + it.factor(growing),
            weights: self.weights + it.weight(growing),
            left: self.left + 1,
        }
    }
}

// As the definition has it: `abs` would make 0.0 of -0.0.
fn magnitude_of(x: f32) -> f32
    ensures { result ≡ magnitude x }
{
    if x < 0.0 { -x } else { x }
}

// Step 4b: factors that sum below 1 share out only that part of the initial free space, where it is the smaller.
#[tactic(auto, unfolding(crate::specs::Flex::limited))]
fn limit(initial: f32, factors: f32, free: f32) -> f32
    ensures { result ≡ limited initial factors free }
{
    if factors < 1.0 {
        let part = initial * factors;
        if magnitude_of(part) < magnitude_of(free) {
            return part;
        }
    }
    free
}

impl Line {
    // What a round shares out, from its sums. No entry point.
    pub fn share(self, n: usize, s: Sums) -> Share
        requires { n ≤ 1024 }
        ensures { result ≡ share_of self n s }
    {
        let space = space_left(self.inner, self.gap, n, s.outer);
        Share {
            growing: self.growing,
            free: limit(self.initial, s.factors, space),
            weights: s.weights,
        }
    }
}
