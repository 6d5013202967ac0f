// The main axis of one line (CSS-FLEX 9.5), on worked-out targets.
ghost use Rattle.std.specs.Prelude.{◌≡◌, ◌≤◌, length};
ghost use Rattle.place_align.specs.Sums.{total_up_to};
ghost use Rattle.place_align.specs.Axis.{autos};
ghost use Rattle.place_main.specs.MainAxis.{main_outer, count, outer_at, free_space, auto_share, justified, Spaced};
ghost use Rattle.place_main.specs.Lists.{lists_of};
ghost use Rattle.place_main.specs.Parts.{MainOneLength};

use crate::LineLists;
use grid::floats::sum_axis_gaps;
use keywords::ContentAlignment;
use place_align::axis;

// An item with its margins, auto ones as 0. The codes are those of the lists, as C hands them over.
#[tactic(auto, unfolding(crate::specs::MainAxis::main_outer))]
fn outer_size(target: f32, auto_start: u32, start: f32, auto_end: u32, end: f32) -> f32
    ensures { result ≡ main_outer target auto_start start auto_end end }
{
    let before = axis::margin_or(0.0, auto_start, start);
    let after = axis::margin_or(0.0, auto_end, end);
    grid::clean(target) + (before + after)
}

// The finished sum of the outer sizes.
#[tactic(auto, unfolding(place_align::specs::Sums::total_up_to))]
fn outer_sum(items: LineLists) -> f32
    requires { MainOneLength (lists_of items) }
    ensures { result ≡ total_up_to (outer_at (lists_of items.entry)) (count (lists_of items.entry)) }
{
    let mut sum = 0.0;
    for i in 0..items.targets.len() {
        sum += outer_size(
            items.targets[i],
            items.auto_start[i],
            items.start[i],
            items.auto_end[i],
            items.end[i],
        );
    }
    sum
}

// The inner size less the used space.
#[tactic(auto, unfolding(crate::specs::MainAxis::free_space))]
fn free_space(inner: f32, gap: f32, items: LineLists) -> f32
    requires { MainOneLength (lists_of items) }
    ensures { result ≡ free_space inner gap (lists_of items.entry) }
{
    let between = sum_axis_gaps(grid::clean(gap), items.targets.len());
    grid::clean(inner) - (between + outer_sum(items))
}

// How many of one side's margins are auto.
#[tactic(auto, using(place_align::proofs::Totals::autos_counted))]
fn count_auto(auto: &[u32]) -> usize
    requires { length auto.now ≤ 1024 }
    ensures counted { result ≡ autos auto.now (length auto.now) }
    ensures few { result ≤ 1024 }
{
    auto.iter().filter(|&&code| code != 0).count()
}

// What each auto margin gets: an equal part of free space above 0.0.
#[tactic(auto, unfolding(crate::specs::MainAxis::auto_share))]
fn auto_share(free: f32, count: usize) -> f32
    requires { count ≤ 2048 }
    ensures { result ≡ auto_share free count }
{
    if free > 0.0 && count > 0 {
        free / (count as f32)
    } else {
        0.0
    }
}

// What auto margins leave for `justify-content`.
#[tactic(auto, unfolding(crate::specs::MainAxis::justified))]
fn justified_space(free: f32, count: usize) -> f32
    ensures { result ≡ justified free count }
{
    if free > 0.0 && count > 0 { 0.0 } else { free }
}

// CSS-FLEX 9.5 of one accepted line: no entry point, since the lists are of one length, and there is room. The three
// lent lists stay by themselves: a struct of them asks for a clause more, that they are the same lists, and is no
// plainer.
#[tactic(auto, unfolding(crate::specs::MainAxis::auto_count))]
pub fn distribute_remaining_free_space(
    inner: f32,
    gap: f32,
    justify: ContentAlignment,
    reversed: bool,
    items: LineLists,
    offsets: &mut [f32],
    used_start: &mut [f32],
    used_end: &mut [f32],
)
    requires main_one_length { MainOneLength (lists_of items) }
    requires targets_in_bounds { (count (lists_of items) ≤ length offsets.old)
        × (count (lists_of items) ≤ length used_start.old) × (count (lists_of items) ≤ length used_end.old) }
    ensures { Spaced inner gap justify reversed (lists_of items.entry) offsets.old used_start.old used_end.old
        offsets.new used_start.new used_end.new }
{
    let free = free_space(inner, gap, items);
    let count = count_auto(items.auto_start) + count_auto(items.auto_end);
    let share = auto_share(free, count);
    axis::use_margins(share, items.auto_start, items.start, used_start);
    axis::use_margins(share, items.auto_end, items.end, used_end);
    axis::align_along(
        justified_space(free, count),
        items.targets.len(),
        grid::clean(gap),
        justify,
        reversed,
        offsets,
    );
}
