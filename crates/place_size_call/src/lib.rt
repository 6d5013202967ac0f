// The call for the cross size of one line, on any bits.
#![tactic(auto)]

ghost use Rattle.std.specs.Prelude.{◌≡◌, []};
ghost use Rattle.checks.specs.Domain.{checked};
ghost use Rattle.checks.specs.Shapes.{shape_of};
ghost use Rattle.place_size.specs.CrossSize.{count};
ghost use Rattle.place_size.specs.Lists.{lists_of};
ghost use Rattle.place_size.specs.Parts.{CrossOneLength};
ghost use Rattle.place_checks.specs.Numbers.{item_lengths};
ghost use Rattle.place_size_call.specs.SizeCall.{size_input, size_call};

use checks::shapes::check_lists;
use checks::{Refusal, judge, least};
use place_checks::numbers::CrossNumbers;
use place_checks::{marks, numbers};
use place_size::{CrossLists, cross_size};

// Checks 1 and 2: nothing is lent.
fn check_size_shape(items: CrossLists) -> Result<(), Refusal>
    ensures { result ≡ shape_of (item_lengths (lists_of items.entry)) [] (count (lists_of items.entry)) }
{
    let n = items.measured.len();
    let lengths = [
        n,
        items.minimum.len(),
        items.maximum.len(),
        items.capped.len(),
        items.edges.len(),
        items.start.len(),
        items.end.len(),
        items.auto_start.len(),
        items.auto_end.len(),
    ];
    check_lists(&lengths, &[], n)
}

// Checks 3 to 5.
fn check_size_numbers(c: CrossNumbers, items: CrossLists) -> Result<(), Refusal>
    requires { CrossOneLength (lists_of items) }
    ensures { result ≡ checked (size_input c (lists_of items.entry)) (Ok tt) }
{
    let container = numbers::mark_sizing(c);
    let line = marks::mark_cross_items(items);
    judge(least(container, line))
}

// The line's cross size.
#[tactic(auto, unfolding(crate::specs::SizeCall::size_verdict))]
pub fn size_line(c: CrossNumbers, items: CrossLists) -> Result<f32, Refusal>
    ensures { result ≡ size_call c (lists_of items.entry) }
{
    check_size_shape(items)?;
    check_size_numbers(c, items)?;
    Ok(cross_size::calculate_cross_size(numbers::cross_of(c), items))
}
