// The call for the items of one line across it, on any bits.
#![tactic(auto)]

ghost use Rattle.std.specs.Prelude.{◌≡◌, [], ◌∷◌, length};
ghost use Rattle.checks.specs.Domain.{checked};
ghost use Rattle.checks.specs.Shapes.{shape_of};
ghost use Rattle.place_size.specs.CrossSize.{count};
ghost use Rattle.place_size.specs.Lists.{lists_of};
ghost use Rattle.place_cross.specs.Cells.{SameCells};
ghost use Rattle.place_cross.specs.Parts.{SameLengths};
ghost use Rattle.place_across_call.specs.AcrossCall.{across_input, lengths, across_result, across_call};

use checks::shapes::check_lists;
use checks::{Done, Kind, Refusal, judge, least};
use checks_number::{mark_code, mark_float};
use place_checks::marks;
use place_cross::{AcrossCells, AcrossLists, cross_axis};

// Checks 1 and 2, from the lengths of the lists and of the lent ones.
fn check_across_shape(items: AcrossLists, cells: &AcrossCells) -> Result<(), Refusal>
    ensures { result ≡ shape_of
        (lengths (lists_of items.entry.cross) items.entry.alignment.now items.entry.auto_size.now)
        (length cells.now.sizes.now ∷ length cells.now.used_start.now ∷ length cells.now.used_end.now
        ∷ length cells.now.offsets.now ∷ []) (count (lists_of items.entry.cross)) }
{
    let n = items.cross.measured.len();
    let lengths = [
        n,
        items.cross.minimum.len(),
        items.cross.maximum.len(),
        items.cross.capped.len(),
        items.cross.edges.len(),
        items.cross.start.len(),
        items.cross.end.len(),
        items.cross.auto_start.len(),
        items.cross.auto_end.len(),
        items.alignment.len(),
        items.auto_size.len(),
    ];
    let rooms = [
        cells.sizes.len(),
        cells.used_start.len(),
        cells.used_end.len(),
        cells.offsets.len(),
    ];
    check_lists(&lengths, &rooms, n)
}

// Checks 3 to 5. `reversed` is a code here and in the call, since `across_call` answers 5 for one that names nothing.
fn check_across_numbers(line: f32, reversed: u32, items: AcrossLists) -> Result<(), Refusal>
    requires { SameLengths (lists_of items.cross) items.alignment.now items.auto_size.now }
    ensures { result ≡ checked (across_input line reversed (lists_of items.entry.cross) items.entry.alignment.now
        items.entry.auto_size.now) (Ok tt) }
{
    let container = least(mark_float(Kind::Worked, line, 0), mark_code(1, reversed, 0));
    judge(least(container, marks::mark_across(items)))
}

// The line's size is a worked-out number; `reversed` is 1 where the container wraps in reverse.
#[tactic(auto, unfolding(crate::specs::AcrossCall::across_verdict))]
pub fn place_across(
    line: f32,
    reversed: u32,
    items: AcrossLists,
    cells: &mut AcrossCells,
) -> Result<Done, Refusal>
    ensures answer { across_result result cells.new.sizes.now cells.new.used_start.now cells.new.used_end.now
        cells.new.offsets.now ≡ across_call line reversed (lists_of items.entry.cross) items.entry.alignment.now
        items.entry.auto_size.now cells.old.sizes.now cells.old.used_start.now cells.old.used_end.now
        cells.old.offsets.now }
    ensures same_cells { SameCells cells.old cells.new }
{
    check_across_shape(items, cells)?;
    check_across_numbers(line, reversed, items)?;
    cross_axis::place_items(line, reversed != 0, items, cells);
    Ok(Done {
        lines: 0,
        rounds: 0,
    })
}
