// The lines of a table one after another (document 01, "Flexible lengths"): each is flexed by its own items, and its
// free space and rounds are listed by line. For calls that check what they take: none is an entry point.
#![tactic(auto)]

ghost use Rattle.std.specs.Prelude.{◌≡◌, ◌≤◌, length};
ghost use Rattle.flex_table.specs.Table.{item_in};
ghost use Rattle.lists.specs.ByLine.{divides};
ghost use Rattle.flex_lines.specs.Lines.{FlexedLines};
ghost use Rattle.flex_lines.specs.Parts.{Lined, Flowed};

use flex::Item;
use flex_rounds::line::flex_items;
use lists::clear;

// Whether the counts are positive and sum to n. No entry point.
pub fn is_division(counts: &[u32], n: usize) -> bool
    requires { length counts.now ≤ 1024 }
    ensures { result ≡ divides counts.now n }
{
    let mut positive = true;
    let mut sum = 0;
    for &count in counts {
        positive = positive && 0 < count;
        sum += count as usize;
    }
    sum == n && positive
}

// Line after line, by the counts; answers the sum of the rounds. Targets, free space and rounds are lists by
// themselves, as the C interface lends them.
fn flex_each<'a>(
    items: &'a [Item],
    inner: f32,
    gap: f32,
    counts: &'a [u32],
    targets: &mut [f32],
    free: &mut [i32],
    rounds: &mut [u32],
) -> u32
    requires { Lined inner gap items.now (length items.now) counts.now targets.old free.old rounds.old }
    ensures { Flowed inner gap (item_in items.now) counts.now (length counts.now)
        result targets.old free.old rounds.old targets.new free.new
        rounds.new }
{
    let mut sum = 0;
    let mut start = 0;
    for (line, &count) in counts.iter().enumerate() {
        let end = start + count as usize;
        let flexed = flex_items(&items[start..end], inner, gap, &mut targets[start..end]);
        free[line] = flexed.free.0;
        rounds[line] = flexed.rounds;
        sum += flexed.rounds;
        start = end;
    }
    sum
}

// All lines, and 0 in the cells past the last. What it asks is what checks 1 to 6 show. No entry point.
pub fn flex_all<'a>(
    items: &'a [Item],
    inner: f32,
    gap: f32,
    counts: &'a [u32],
    targets: &mut [f32],
    free: &mut [i32],
    rounds: &mut [u32],
) -> u32
    requires { Lined inner gap items.now (length items.now) counts.now targets.old free.old rounds.old }
    ensures { FlexedLines inner gap (item_in items.now) (length items.now) counts.now result
        targets.old free.old rounds.old targets.new free.new
        rounds.new }
{
    let sum = flex_each(items, inner, gap, counts, targets, free, rounds);
    // "Cells past the last line get 0."
    clear(free, counts.len(), items.len(), 0);
    clear(rounds, counts.len(), items.len(), 0);
    sum
}
