// Lines along the cross axis by `align-content` (CSS-FLEX 9.4, step 9, and 9.6).
ghost use Rattle.std.specs.Prelude.{◌≡◌, ◌≤◌, length};
ghost use Rattle.lists.specs.Cells.{overwritten};
ghost use Rattle.place_align.specs.Sums.{total_up_to};
ghost use Rattle.place_cross.specs.Lines.{stretches, stretch_target, gain_to, gain, grown, grown_at, Aligned};

use grid::floats::sum_axis_gaps;
use keywords::{ContentAlignment, Distribution};
use place_align::axis;
use place_size::container;
use place_size::container::Cross;

fn is_stretch(alignment: ContentAlignment) -> bool
    ensures { result ≡ stretches alignment }
{
    matches!(alignment, ContentAlignment::Spread(Distribution::Stretch))
}

// The size that lines are stretched to: the definite one, else the minimum.
fn stretch_target(c: Cross) -> Option<f32>
    ensures { result ≡ stretch_target c }
{
    container::inner_size(c).or(c.minimum)
}

// What each of n lines gains, where lines and gaps together are `used`.
#[tactic(auto, unfolding(crate::specs::Lines::gain_to))]
fn gain_to(target: Option<f32>, used: f32, n: usize) -> f32
    requires { n ≤ 1024 }
    ensures { result ≡ gain_to target used n }
{
    match target {
        Some(size) if used < size => (size - used) / (n as f32),
        _ => 0.0,
    }
}

#[tactic(auto, unfolding(crate::specs::Lines::gain))]
fn line_gain(c: Cross, alignment: ContentAlignment, used: f32, n: usize) -> f32
    requires { n ≤ 1024 }
    ensures { result ≡ gain c alignment used n }
{
    if is_stretch(alignment) {
        gain_to(stretch_target(c), used, n)
    } else {
        0.0
    }
}

#[tactic(auto, unfolding(crate::specs::Lines::grown))]
fn grow_line(more: f32, x: f32) -> f32
    ensures { result ≡ grown more x }
{
    grid::clean(x + more)
}

// The sum of the lines, each with its gain.
#[tactic(auto, unfolding(place_align::specs::Sums::total_up_to))]
fn sum_lines(more: f32, lines: &[f32]) -> f32
    requires { length lines.now ≤ 1024 }
    ensures { result ≡ total_up_to (grown_at more lines.now) (length lines.now) }
{
    let mut sum = 0.0;
    for &x in lines {
        sum += grow_line(more, x);
    }
    sum
}

#[tactic(auto, using(lists::proofs::Each::written_none, lists::proofs::Each::written_turn))]
fn stretch_lines(more: f32, lines: &[f32], sizes: &mut [f32])
    requires { (length lines.now ≤ length sizes.old) × (length lines.now ≤ 1024) }
    ensures { sizes.new ≡ overwritten (length lines.now) (grown_at more lines.now)
        sizes.old }
{
    for (i, &x) in lines.iter().enumerate() {
        sizes[i] = grow_line(more, x);
    }
}

// Stretches and places the accepted lines, and gives the container's inner cross size. The two lent lists stay by
// themselves: a struct of them asks for a clause more, that they are the same lists. No entry point: there is room.
pub fn align_lines(
    c: Cross,
    alignment: ContentAlignment,
    lines: &[f32],
    sizes: &mut [f32],
    offsets: &mut [f32],
) -> f32
    requires { (length lines.now ≤ length sizes.old) × (length lines.now ≤ length offsets.old)
        × (length lines.now ≤ 1024) }
    ensures { Aligned c alignment lines.now sizes.old offsets.old result
        sizes.new offsets.new }
{
    let cross = container::read_cross(c);
    let n = lines.len();
    let gaps = sum_axis_gaps(cross.gap, n);
    let more = line_gain(cross, alignment, sum_lines(0.0, lines) + gaps, n);
    stretch_lines(more, lines, sizes);
    let sum = sum_lines(more, lines);
    let size = container::inner_or(cross, sum + gaps);
    let free = size - sum - gaps;
    axis::align_along(
        free,
        n,
        cross.gap,
        alignment,
        keywords::is_reversed(cross.wrap),
        offsets,
    );
    grid::clean(size)
}
