// The marks of a line's items on the cross axis. No entry points: checks 1 and 2 have been made.
ghost use Rattle.std.specs.Prelude.{◌≡◌, ◌+◌};
ghost use Rattle.checks.specs.Marks.{least_of, least_up_to};
ghost use Rattle.place_size.specs.CrossSize.{count};
ghost use Rattle.place_size.specs.Lists.{lists_of};
ghost use Rattle.place_size.specs.Parts.{CrossOneLength};
ghost use Rattle.place_cross.specs.Parts.{SameLengths};
ghost use Rattle.place_checks.specs.Numbers.{cross_numbers_at, across_numbers_at};

use checks::{Kind, Mark, least};
use checks_list::whole::{mark_beside, mark_code_list, mark_list};
use place_cross::AcrossLists;
use place_size::CrossLists;

// What a line's size turns on. No entry point.
pub fn mark_cross_items(items: CrossLists) -> Mark
    requires { CrossOneLength (lists_of items) }
    ensures { result.0 ≡ least_up_to (λ i. least_of (cross_numbers_at (lists_of items.entry) i) (i + 1))
        (count (lists_of items.entry)) }
{
    let sizes = mark_list(Kind::Size, items.measured);
    let minima = mark_list(Kind::Size, items.minimum);
    let around = mark_list(Kind::Size, items.edges);
    let maxima = mark_beside(Kind::Size, items.maximum, items.capped, 1);
    let before = mark_beside(Kind::Margin, items.start, items.auto_start, 0);
    let after = mark_beside(Kind::Margin, items.end, items.auto_end, 0);
    least(
        sizes,
        least(minima, least(around, least(maxima, least(before, after)))),
    )
}

// What the items' places across their line turn on. No entry point.
pub fn mark_across(items: AcrossLists) -> Mark
    requires { SameLengths (lists_of items.cross) items.alignment.now items.auto_size.now }
    ensures { result.0 ≡ least_up_to (λ i. least_of (across_numbers_at (lists_of items.entry.cross)
        items.entry.alignment.now items.entry.auto_size.now i) (i + 1)) (count (lists_of items.entry.cross)) }
{
    let numbers = mark_cross_items(items.cross);
    let alignments = mark_code_list(10, items.alignment);
    least(
        numbers,
        least(alignments, mark_code_list(1, items.auto_size)),
    )
}
