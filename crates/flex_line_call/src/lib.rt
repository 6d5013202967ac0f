// The call that flexes one line, on any bits: checks 1 to 6, and then the parts of crate `flex_rounds` (document 01,
// "Flexible lengths").
#![tactic(auto)]

ghost use Rattle.std.specs.Prelude.{◌≤◌, length};
ghost use Rattle.grid.specs.Values.{Length};
ghost use Rattle.checks.specs.Domain.{summed};
ghost use Rattle.flex.specs.Flex.{outer_sum};
ghost use Rattle.flex.specs.Items.{lists_of, count};
ghost use Rattle.flex.specs.Accepted.{Measured, Every, Even};
ghost use Rattle.checks.specs.Marks.{SoundInput};
ghost use Rattle.flex_checks.specs.Input.{input_of};
ghost use Rattle.flex_checks.specs.Props.{SoundInput-prop};
ghost use Rattle.flex_line_call.specs.Call.{LineAnswered, FlexedLine};
ghost use Rattle.flex_line_call.specs.Parts.{LineSummed};

use checks::Refusal;
use flex::{Item, ItemLists};
use flex_rounds::line::{Flexing, flex_items};
use flex_table::read_items;
use flex_table::sum::outer_sum;

// Check 6 of items that are read, and, where it passes, their line flexed.
fn flex_read(items: &[Item], inner: f32, gap: f32, targets: &mut [f32]) -> Result<Flexing, Refusal>
    requires { (length items.now ≤ 1024) × (length items.now ≤ length targets.old) × Length inner × Length gap
        × Every Measured items.now }
    ensures { LineAnswered (summed (outer_sum gap items.now)) inner gap items.now result targets.old targets.new }
{
    checks::check_sum(outer_sum(items, gap))?;
    Ok(flex_items(items, inner, gap, targets))
}

// A call that checks 1 to 5 have passed.
#[derive(Clone, Copy)]
struct CheckedLine<'a> {
    inner: f32,
    gap: f32,
    items: ItemLists<'a>,
    ghost even: { Even (lists_of items) },
    ghost sound: { SoundInput (input_of inner gap (lists_of items)) } by { SoundInput-prop _ },
}

impl<'a> CheckedLine<'a> {
    // Picks a table as small as serves: clearing it takes longer than flexing a short line.
    fn flex(self, targets: &mut [f32]) -> Result<Flexing, Refusal>
        requires { count (lists_of self.items) ≤ length targets.old }
        ensures { LineSummed self.entry.inner self.entry.gap (lists_of self.entry.items) result
            targets.old targets.new }
    {
        match self.items.len() {
            0..=16 => self.flex_sized::<16>(targets),
            17..=128 => self.flex_sized::<128>(targets),
            _ => self.flex_sized::<1024>(targets),
        }
    }

    // In a table of the frame, of N items.
    fn flex_sized<const N: usize>(self, targets: &mut [f32]) -> Result<Flexing, Refusal>
        requires { (count (lists_of self.items) ≤ length targets.old) × (count (lists_of self.items) ≤ N) × (N ≤ 1024) }
        ensures { LineSummed self.entry.inner self.entry.gap (lists_of self.entry.items) result
            targets.old targets.new }
    {
        let mut table = [Item::default(); N];
        self.flex_in(&mut table, targets)
    }

    // In a table that it is lent.
    fn flex_in(self, table: &mut [Item], targets: &mut [f32]) -> Result<Flexing, Refusal>
        requires { (count (lists_of self.items) ≤ length targets.old)
            × (count (lists_of self.items) ≤ length table.old) }
        ensures { LineSummed self.entry.inner self.entry.gap (lists_of self.entry.items) result
            targets.old targets.new }
    {
        read_items(self.items, table);
        flex_read(
            &table[..self.items.len()],
            grid::clean(self.inner),
            grid::clean(self.gap),
            targets,
        )
    }
}

// Flexes one line: the n items of the lists, in a container of that inner main size and gap. The targets are written to
// the first n cells. Answers the line's free space before flexing, and its rounds.
pub fn flex_line(
    inner: f32,
    gap: f32,
    items: ItemLists,
    targets: &mut [f32],
) -> Result<Flexing, Refusal>
    ensures { FlexedLine inner gap (lists_of items.entry) result targets.old targets.new }
{
    flex_checks::check_line(inner, gap, items, targets.len())?;
    let line = CheckedLine { inner, gap, items };
    line.flex(targets)
}
