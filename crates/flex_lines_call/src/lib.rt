// The call that flexes many lines, on any bits: checks 1 to 6, and then each line flexed by its own items (document 01,
// "Flexible lengths").
#![tactic(auto)]

ghost use Rattle.std.specs.Prelude.{◌≡◌, ℕ, ◌≤◌, ◌<◌, length, get_or};
ghost use Rattle.checks.specs.Domain.{summed};
ghost use Rattle.checks.specs.Marks.{SoundInput};
ghost use Rattle.flex.specs.Flex.{outer_sum};
ghost use Rattle.flex.specs.Items.{lists_of, count};
ghost use Rattle.flex.specs.Accepted.{Even};
ghost use Rattle.flex_table.specs.Table.{item_in};
ghost use Rattle.lists.specs.ByLine.{line_start};
ghost use Rattle.flex_checks.specs.Input.{input_of};
ghost use Rattle.flex_checks.specs.Props.{SoundInput-prop};
ghost use Rattle.flex_lines.specs.Parts.{LinesDivided};
ghost use Rattle.flex_lines_call.specs.Lines.{AnsweredLines, FlexedByLine};
ghost use Rattle.flex_lines_call.specs.Parts.{Roomy, SummedLines};

use checks::{Done, Refusal};
use flex::{Item, ItemLists};
use flex_table::read_items;
use flex_table::sum::outer_sum;

// The three lent lists are passed one by one: of a bundle by value a contract cannot say what its lists hold then, and
// behind a `&mut` each of five contracts would also have to say that it still holds the lists that were lent.

// Check 6 of items that are read, and, where it passes, their lines flexed.
fn flex_lines_read(
    items: &[Item],
    inner: f32,
    gap: f32,
    counts: &[u32],
    targets: &mut [f32],
    free: &mut [i32],
    rounds: &mut [u32],
) -> Result<Done, Refusal>
    requires { LinesDivided inner gap items.now (length items.now) counts.now targets.old free.old rounds.old }
    ensures { AnsweredLines (summed (outer_sum gap items.now)) inner gap (item_in items.now) (length items.now)
        counts.now result targets.old free.old rounds.old targets.new free.new rounds.new }
{
    checks::check_sum(outer_sum(items, gap))?;
    let sum = flex_lines::flex_all(items, inner, gap, counts, targets, free, rounds);
    Ok(Done {
        lines: counts.len() as u32,
        rounds: sum,
    })
}

// A call that checks 1 to 5 have passed.
#[derive(Clone, Copy)]
struct CheckedLines<'a> {
    inner: f32,
    gap: f32,
    counts: &'a [u32],
    items: ItemLists<'a>,
    ghost even: { Even (lists_of items) },
    ghost sound: { SoundInput (input_of inner gap (lists_of items)) } by { SoundInput-prop _ },
    ghost whole: { line_start counts.now (length counts.now) ≡ count (lists_of items) },
    ghost positive: { (j : ℕ) → j < length counts.now → 0 < get_or counts.now j 0 },
}

impl<'a> CheckedLines<'a> {
    // Picks a table as small as serves.
    fn flex(
        self,
        targets: &mut [f32],
        free: &mut [i32],
        rounds: &mut [u32],
    ) -> Result<Done, Refusal>
        requires { Roomy (count (lists_of self.items)) targets.old free.old rounds.old }
        ensures { SummedLines self.entry.inner self.entry.gap self.entry.counts.now (lists_of self.entry.items) result
            targets.old free.old rounds.old targets.new free.new rounds.new }
    {
        match self.items.len() {
            0..=16 => self.flex_sized::<16>(targets, free, rounds),
            17..=128 => self.flex_sized::<128>(targets, free, rounds),
            _ => self.flex_sized::<1024>(targets, free, rounds),
        }
    }

    // In a table of the frame, of N items.
    fn flex_sized<const N: usize>(
        self,
        targets: &mut [f32],
        free: &mut [i32],
        rounds: &mut [u32],
    ) -> Result<Done, Refusal>
        requires { Roomy (count (lists_of self.items)) targets.old free.old rounds.old
            × (count (lists_of self.items) ≤ N) × (N ≤ 1024) }
        ensures { SummedLines self.entry.inner self.entry.gap self.entry.counts.now (lists_of self.entry.items) result
            targets.old free.old rounds.old targets.new free.new rounds.new }
    {
        let mut table = [Item::default(); N];
        self.flex_in(&mut table, targets, free, rounds)
    }

    // In a table that it is lent.
    fn flex_in(
        self,
        table: &mut [Item],
        targets: &mut [f32],
        free: &mut [i32],
        rounds: &mut [u32],
    ) -> Result<Done, Refusal>
        requires { Roomy (count (lists_of self.items)) targets.old free.old rounds.old
            × (count (lists_of self.items) ≤ length table.old) }
        ensures { SummedLines self.entry.inner self.entry.gap self.entry.counts.now (lists_of self.entry.items) result
            targets.old free.old rounds.old targets.new free.new rounds.new }
    {
        read_items(self.items, table);
        flex_lines_read(
            &table[..self.items.len()],
            grid::clean(self.inner),
            grid::clean(self.gap),
            self.counts,
            targets,
            free,
            rounds,
        )
    }
}

// Flexes many lines: line j has the next `counts[j]` of the n items of the lists, which are those of `flex_line`. The
// targets are written to the first n cells, and free space in sixty-fourths and rounds by line, with 0 past the last
// line up to n. Answers the lines and the sum of the rounds.
pub fn flex_lines(
    inner: f32,
    gap: f32,
    counts: &[u32],
    items: ItemLists,
    targets: &mut [f32],
    free: &mut [i32],
    rounds: &mut [u32],
) -> Result<Done, Refusal>
    ensures { FlexedByLine inner gap counts.now (lists_of items.entry) result targets.old
        free.old rounds.old targets.new free.new rounds.new }
{
    let room = targets.len().min(free.len().min(rounds.len()));
    flex_checks::lines::check_lines(inner, gap, counts, items, room)?;
    let lines = CheckedLines {
        inner,
        gap,
        counts,
        items,
    };
    lines.flex(targets, free, rounds)
}
