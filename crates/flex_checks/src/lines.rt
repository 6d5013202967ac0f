// Checks 1 to 5 of a call over many lines: those of one line, and that the counts divide the items.
ghost use Rattle.std.specs.Prelude.{◌≡◌, ◌≤◌, length};
ghost use Rattle.checks.specs.Domain.{then};
ghost use Rattle.checks.specs.Marks.{mark, least_mark, judged};
ghost use Rattle.flex.specs.Items.{lists_of};
ghost use Rattle.flex_checks.specs.Counts.{division, lines_shape, lines_input};

use checks::{Mark, Refusal};
use flex::ItemLists;

// The counts are checked as a code, since the definition `division` takes them as one: 0 where they divide n items.
fn mark_counts(counts: &[u32], n: usize) -> Mark
    requires { length counts.now ≤ 1024 }
    ensures { result.0 ≡ mark (division counts.now n) 0 }
{
    if flex_lines::is_division(counts, n) {
        checks_number::mark_code(0, 0, 0)
    } else {
        checks_number::mark_code(0, 1, 0)
    }
}

// Checks 1 to 5.
pub fn check_lines(
    inner: f32,
    gap: f32,
    counts: &[u32],
    items: ItemLists,
    room: usize,
) -> Result<(), Refusal>
    ensures { result ≡ then (lines_shape counts.now (lists_of items.entry) room)
        (judged (least_mark (lines_input inner gap counts.now (lists_of items.entry)))) }
{
    checks::check_shape(counts.len(), true)?;
    crate::check_lengths(items, room)?;
    let numbers = crate::mark_numbers(inner, gap, items);
    checks::judge(checks::least(numbers, mark_counts(counts, items.len())))
}
