// A line: its free space before flexing, the items that are frozen at first, and the rounds while an item is unfrozen.
// Marks and targets are lists beside the items, for the reason that rounds.rt gives. No entry points.
ghost use Rattle.std.specs.Prelude.{◌≡◌, map, ◌≤◌, length};
ghost use Rattle.grid.specs.Grid.{cleaned};
ghost use Rattle.flex.specs.Flex.{total, outer, hypothetical, start_cell, free_before, Flexed};
ghost use Rattle.flex.specs.Accepted.{Accepted};
ghost use Rattle.flex.specs.Steps.{Summed};
ghost use Rattle.flex_rounds.specs.Cells.{cells_of, LineRoom, Rewritten, Ran};

use crate::rounds::{one_round, sum_up};
use flex::sharing::{is_growing, space_left};
use flex::{Item, Line, Sums};
use grid::floats::sum_axis_gaps;

// The sum of the hypothetical outer sizes.
fn hypothetical_sum(items: &[Item]) -> f32
    ensures { result ≡ total (λ it. outer it (hypothetical it)) items.now }
{
    let mut s = 0.0;
    for &it in items {
        s += it.outer_size(it.hypothetical_size());
    }
    s
}

// The free space before flexing. On accepted lines the sums are exact, so the difference is taken in whole
// sixty-fourths.
fn free_before(items: &[Item], inner: f32, gap: f32) -> grid::Sixtyfourths
    requires { (length items.now ≤ 1024) × Accepted inner gap items.now }
    ensures { result.0 ≡ free_before inner gap items.now }
{
    let used = sum_axis_gaps(gap, items.len()) + hypothetical_sum(items);
    let a = grid::to_sixtyfourths(inner);
    let b = grid::to_sixtyfourths(used);
    grid::Sixtyfourths(a.0 - b.0)
}

// Step 2: freezes the inflexible items; every target is the hypothetical size.
fn begin(items: &[Item], growing: bool, frozen: &mut [bool], targets: &mut [f32])
    requires { LineRoom items.now frozen.old targets.old }
    ensures { Rewritten items.now (map (start_cell growing) items.now) targets.old
        frozen.new targets.new }
{
    for (i, &it) in items.iter().enumerate() {
        frozen[i] = it.is_inflexible(growing);
        targets[i] = it.hypothetical_size();
    }
}

// Step 4: the rounds, counted, from the sums before the first. Each freezes an item, so that there are no more of them
// than items; only the sums say when they are over.
fn run_rounds(
    items: &[Item],
    ln: Line,
    first: Sums,
    frozen: &mut [bool],
    targets: &mut [f32],
) -> u32
    requires { LineRoom items.now frozen.old targets.old
        × Summed ln.growing (cells_of items.now frozen.old targets.old) first }
    ensures { Ran items.now ln result frozen.old targets.old frozen.new targets.new }
{
    let mut s = first;
    let mut rounds = 0;
    while s.left > 0 {
        one_round(items, ln, s, frozen, targets);
        s = sum_up(items, ln.growing, frozen, targets);
        rounds += 1;
    }
    rounds
}

// Step 5: no target is -0.0.
fn tidy(targets: &mut [f32])
    ensures { targets.new ≡ map cleaned targets.old }
{
    for x in targets.iter_mut() {
        *x = grid::clean(*x);
    }
}

// A line's free space before flexing, and its rounds.
#[derive(Clone, Copy)]
pub struct Flexing {
    pub free: grid::Sixtyfourths,
    pub rounds: u32,
}

// Flexes a line's items with the marks that it is lent.
fn flex_marked(
    items: &[Item],
    inner: f32,
    gap: f32,
    frozen: &mut [bool],
    targets: &mut [f32],
) -> Flexing
    requires { LineRoom items.now frozen.old targets.old × Accepted inner gap items.now }
    ensures { Flexed inner gap items.now result.free.0 result.rounds targets.old targets.new }
{
    let free = free_before(items, inner, gap);
    let growing = is_growing(free);
    begin(items, growing, frozen, targets);
    let s = sum_up(items, growing, frozen, targets);
    let ln = Line {
        inner,
        gap,
        initial: space_left(inner, gap, items.len(), s.outer),
        growing,
    };
    let rounds = run_rounds(items, ln, s, frozen, targets);
    tidy(&mut targets[..items.len()]);
    Flexing { free, rounds }
}

// The same with marks of the frame, N of them.
fn flex_within<const N: usize>(items: &[Item], inner: f32, gap: f32, targets: &mut [f32]) -> Flexing
    requires { (N ≤ 1024) × (length items.now ≤ N) × (length items.now ≤ length targets.old)
        × Accepted inner gap items.now }
    ensures { Flexed inner gap items.now result.free.0 result.rounds targets.old targets.new }
{
    let mut frozen = [false; N];
    flex_marked(items, inner, gap, &mut frozen, targets)
}

// Flexes the items of a line, which the checks have accepted. There are as few marks as serve, so that a short line
// clears few. No entry point: what it asks is what the checks show.
pub fn flex_items(items: &[Item], inner: f32, gap: f32, targets: &mut [f32]) -> Flexing
    requires { (length items.now ≤ 1024) × (length items.now ≤ length targets.old)
        × Accepted inner gap items.now }
    ensures { Flexed inner gap items.now result.free.0 result.rounds targets.old targets.new }
{
    if items.len() <= 16 {
        return flex_within::<16>(items, inner, gap, targets);
    }
    if items.len() <= 128 {
        return flex_within::<128>(items, inner, gap, targets);
    }
    flex_within::<1024>(items, inner, gap, targets)
}
