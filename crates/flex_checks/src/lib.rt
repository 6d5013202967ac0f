// Checks 1 to 5 of a call that flexes: the lengths of its lists, and the numbers that it takes. For the calls: none is
// an entry point.
#![tactic(auto)]

ghost use Rattle.std.specs.Prelude.{◌≡◌, ◌+◌, ◌≤◌, length};
ghost use Rattle.checks.specs.Domain.{then};
ghost use Rattle.checks.specs.Marks.{least_of, least_up_to, least_mark, judged};
ghost use Rattle.flex.specs.Items.{lists_of, count};
ghost use Rattle.flex.specs.Accepted.{Even};
ghost use Rattle.flex_checks.specs.Input.{flex_shape, plain_at, input_of};

use checks::shapes::check_lists;
use checks::{Kind, Mark, Refusal, least, no_mark};
use checks_list::mark_floats;
use checks_list::whole::mark_beside;
use checks_number::mark_float;
use flex::ItemLists;

pub mod lines;

// Checks 1 and 2, from the lengths of the lists and the cells for the targets.
fn check_lengths(items: ItemLists, room: usize) -> Result<(), Refusal>
    ensures { result ≡ flex_shape (lists_of items.entry) room }
{
    let lengths = [
        items.base.len(),
        items.minimum.len(),
        items.maximum.len(),
        items.has_maximum.len(),
        items.edges.len(),
        items.grow.len(),
        items.shrink.len(),
        items.start.len(),
        items.end.len(),
        items.auto_start.len(),
        items.auto_end.len(),
    ];
    check_lists(&lengths, &[room], items.base.len())
}

// The marks of the numbers that every item has.
fn mark_plain(items: ItemLists) -> Mark
    requires { Even (lists_of items) }
    ensures { let ls = lists_of items.entry in result.0 ≡ least_up_to (λ i. least_of (plain_at ls.base ls.minimum
        ls.edges ls.grow ls.shrink i) (i + 1)) (count ls) }
{
    let m = least(mark_floats(Kind::Factor, items.shrink), no_mark());
    let m = least(mark_floats(Kind::Factor, items.grow), m);
    let m = least(mark_floats(Kind::Size, items.edges), m);
    let m = least(mark_floats(Kind::Size, items.minimum), m);
    least(mark_floats(Kind::Size, items.base), m)
}

// The least mark of all numbers that a line takes, of lists of one length. No type says so of them: two calls and the
// pass would each make one, of lists that then go on as they came. No entry point.
pub fn mark_numbers(inner: f32, gap: f32, items: ItemLists) -> Mark
    requires { Even (lists_of items) }
    ensures { result.0 ≡ least_mark (input_of inner gap (lists_of items.entry)) }
{
    let container = least(
        mark_float(Kind::Size, inner, 0),
        mark_float(Kind::Size, gap, 0),
    );
    let plain = mark_plain(items);
    let maxima = mark_beside(Kind::Size, items.maximum, items.has_maximum, 1);
    let starts = mark_beside(Kind::Margin, items.start, items.auto_start, 0);
    let ends = mark_beside(Kind::Margin, items.end, items.auto_end, 0);
    least(container, least(plain, least(maxima, least(starts, ends))))
}

// Checks 1 to 5.
pub fn check_line(inner: f32, gap: f32, items: ItemLists, room: usize) -> Result<(), Refusal>
    ensures { result ≡ then (flex_shape (lists_of items.entry) room)
        (judged (least_mark (input_of inner gap (lists_of items.entry)))) }
{
    check_lengths(items, room)?;
    checks::judge(mark_numbers(inner, gap, items))
}
