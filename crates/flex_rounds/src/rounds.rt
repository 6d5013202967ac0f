// One round of the loop, steps 4b to 4e, over a line's items and their frozen marks and targets. The marks and targets
// are lists beside the items, since the targets are the caller's own. They are read and written by the item's index: no
// clause says what a zip of lists that are written leaves in them. No entry points.
ghost use Rattle.std.specs.Prelude.{◌≡◌, map};
ghost use Rattle.flex.specs.Flex.{total, left, violation, round};
ghost use Rattle.flex.specs.Steps.{Summed, sized, settled};
ghost use Rattle.flex_rounds.specs.Cells.{cells_of, LineRoom, Rewritten};

use flex::sizes::is_frozen;
use flex::{Item, Line, Share, Sums};

// The sums before a round: what all items take, the factors and weights of the unfrozen ones, and how many those are.
// No entry point.
pub fn sum_up(items: &[Item], growing: bool, frozen: &[bool], targets: &[f32]) -> Sums
    requires { LineRoom items.now frozen.now targets.now }
    ensures { Summed growing (cells_of items.now frozen.now targets.now) result }
{
    let mut s = Sums::default();
    for (i, &it) in items.iter().enumerate() {
        s = s.add_up(it, growing, frozen[i], targets[i]);
    }
    s
}

// Steps 4c and 4d: each unfrozen target is the flexed size. Answers the total of the violations.
fn flex_sizes(items: &[Item], sh: Share, frozen: &[bool], targets: &mut [f32]) -> f32
    requires { LineRoom items.now frozen.now targets.old }
    ensures value { result ≡ total (λ c. violation sh c.item)
        (left (cells_of items.now frozen.now targets.old)) }
    ensures rewritten { Rewritten items.now (map (sized sh)
        (cells_of items.now frozen.now targets.old)) targets.old
        frozen.now targets.new }
{
    let mut sum = 0.0;
    for (i, &it) in items.iter().enumerate() {
        if frozen[i] {
            continue;
        }
        let size = it.flexed_size(sh);
        sum += it.clamped(size) - size;
        targets[i] = size;
    }
    sum
}

// Step 4e: clamps each unfrozen target, and freezes the item or not, by the total of the violations.
fn settle_all(items: &[Item], sum: f32, frozen: &mut [bool], targets: &mut [f32])
    requires { LineRoom items.now frozen.old targets.old }
    ensures { Rewritten items.now (map (settled sum)
        (cells_of items.now frozen.old targets.old)) targets.old
        frozen.new targets.new }
{
    for (i, &it) in items.iter().enumerate() {
        if frozen[i] {
            continue;
        }
        let size = targets[i];
        let held = it.clamped(size);
        frozen[i] = is_frozen(sum, held - size);
        targets[i] = held;
    }
}

// A round, with the sums before it. No entry point.
pub fn one_round(items: &[Item], ln: Line, s: Sums, frozen: &mut [bool], targets: &mut [f32])
    requires { LineRoom items.now frozen.old targets.old
        × Summed ln.growing (cells_of items.now frozen.old targets.old) s }
    ensures { Rewritten items.now (round ln (cells_of items.now frozen.old targets.old))
        targets.old frozen.new targets.new }
{
    let sh = ln.share(items.len(), s);
    let sum = flex_sizes(items, sh, frozen, targets);
    settle_all(items, sum, frozen, targets);
}
