// What both axes share: margins that may be auto, and offsets in the order of the walk. No entry points: the lists are
// of one length, there is room, and there are few items, which checks 1 and 2 have shown.
ghost use Rattle.std.specs.Prelude.{◌≡◌, ◌≤◌, ◌<◌, length};
ghost use Rattle.lists.specs.Cells.{overwritten};
ghost use Rattle.place_align.specs.Axis.{margin, margin_at, walked, stepped, offsets};

use keywords::ContentAlignment;

// A margin, or the share of an auto one. The code is C's, as `margin` of specs/ takes it: 0 where the margin is given.
#[tactic(auto, unfolding(crate::specs::Axis::margin))]
pub fn margin_or(share: f32, auto: u32, x: f32) -> f32
    ensures { result ≡ margin share auto x }
{
    if auto == 0 { grid::clean(x) } else { share }
}

// The used margins of one side, from its codes and its margins, which C hands over as lists of their own. No entry
// point.
#[tactic(auto, using(lists::proofs::Each::written_none, lists::proofs::Each::written_turn))]
pub fn use_margins(share: f32, auto: &[u32], margins: &[f32], used: &mut [f32])
    requires { (length auto.now ≡ length margins.now) × (length margins.now ≤ length used.old)
        × (length margins.now ≤ 1024) }
    ensures { used.new ≡ overwritten (length margins.now)
        (margin_at share auto.now margins.now) used.old }
{
    for i in 0..margins.len() {
        used[i] = margin_or(share, auto[i], margins[i]);
    }
}

// Where item i comes in the walk from the physical start.
fn walk_place(i: usize, n: usize, reversed: bool) -> usize
    requires { i < n }
    ensures { result ≡ walked reversed n i }
{
    if reversed { n - 1 - i } else { i }
}

// The step before item i of n.
#[tactic(auto, unfolding(crate::specs::Axis::stepped))]
fn step_before(i: usize, n: usize, reversed: bool, first: f32, later: f32) -> f32
    requires { i < n }
    ensures { result ≡ stepped first later reversed n i }
{
    if walk_place(i, n, reversed) == 0 {
        first
    } else {
        later
    }
}

// The offsets of the first n cells.
#[tactic(auto, using(lists::proofs::Each::written_none, lists::proofs::Each::written_turn))]
fn step_all(n: usize, reversed: bool, first: f32, later: f32, cells: &mut [f32])
    requires { (n ≤ length cells.old) × (n ≤ 1024) }
    ensures { cells.new ≡ overwritten n (stepped first later reversed n) cells.old }
{
    for i in 0..n {
        cells[i] = step_before(i, n, reversed, first, later);
    }
}

// Items along a line, or lines along the cross axis, by a content alignment. No entry point.
#[tactic(auto, using(lists::proofs::Each::written_no_cell), unfolding(crate::specs::Axis::offsets))]
pub fn align_along(
    free: f32,
    n: usize,
    gap: f32,
    alignment: ContentAlignment,
    reversed: bool,
    cells: &mut [f32],
)
    requires { (n ≤ length cells.old) × (n ≤ 1024) }
    ensures { cells.new ≡ overwritten n (offsets free n gap alignment reversed) cells.old }
{
    if n == 0 {
        return;
    }
    let used = crate::apply_alignment_fallback(free, n, alignment);
    let first = grid::clean(crate::first_offset(free, n, reversed, used));
    let later = grid::clean(crate::later_offset(free, n, gap, used));
    step_all(n, reversed, first, later, cells);
}
