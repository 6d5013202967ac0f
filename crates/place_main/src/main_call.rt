// The call for the main axis of one line, on any bits. The container's numbers stay single: the checks and the call
// have `justify` and `reversed` as the codes that C hands over, since `main_call` answers 5 for one that names nothing,
// and the steps have what they name, so no one struct serves both. The three lent lists stay single as C lends them.
ghost use Rattle.std.specs.Prelude.{◌≡◌, [], ◌∷◌};
ghost use Rattle.checks.specs.Domain.{checked};
ghost use Rattle.checks.specs.Marks.{least_of};
ghost use Rattle.place_main.specs.Lists.{lists_of};
ghost use Rattle.place_main.specs.MainAxis.{count};
ghost use Rattle.place_main.specs.Parts.{MainOneLength};
ghost use Rattle.checks.specs.Shapes.{shape_of};
ghost use Rattle.place_main.specs.MainCall.{main_container_numbers, main_input, lengths, main_result, main_call};

use crate::{LineLists, main_axis};
use checks::shapes::check_lists;
use checks::{Done, Kind, Mark, Refusal, judge, least};
use checks_list::whole::{mark_beside, mark_list};
use checks_number::{mark_code, mark_float};

// Checks 1 and 2, from the lengths of the lists and of the lent ones.
fn check_main_shape(
    items: LineLists,
    offsets: usize,
    used_start: usize,
    used_end: usize,
) -> Result<(), Refusal>
    ensures { result ≡ shape_of (lengths (lists_of items.entry)) (offsets ∷ used_start ∷ used_end ∷ [])
        (count (lists_of items.entry)) }
{
    let n = items.targets.len();
    let lengths = [
        n,
        items.start.len(),
        items.end.len(),
        items.auto_start.len(),
        items.auto_end.len(),
    ];
    check_lists(&lengths, &[offsets, used_start, used_end], n)
}

#[tactic(auto, using(checks::proofs::Checks::least_one), unfolding(checks::specs::Marks::least_of))]
fn mark_main_container(inner: f32, gap: f32, justify: u32, reversed: u32) -> Mark
    ensures { result.0 ≡ least_of (main_container_numbers inner gap justify reversed) 0 }
{
    let lengths = least(
        mark_float(Kind::Size, inner, 0),
        mark_float(Kind::Size, gap, 0),
    );
    let codes = least(mark_code(13, justify, 0), mark_code(1, reversed, 0));
    least(lengths, codes)
}

// Checks 3 to 5.
fn check_main_numbers(
    inner: f32,
    gap: f32,
    justify: u32,
    reversed: u32,
    items: LineLists,
) -> Result<(), Refusal>
    requires { MainOneLength (lists_of items) }
    ensures { result ≡ checked (main_input inner gap justify reversed (lists_of items.entry)) (Ok tt) }
{
    let container = mark_main_container(inner, gap, justify, reversed);
    let margins = least(
        mark_beside(Kind::Margin, items.start, items.auto_start, 0),
        mark_beside(Kind::Margin, items.end, items.auto_end, 0),
    );
    judge(least(
        container,
        least(mark_list(Kind::Worked, items.targets), margins),
    ))
}

#[tactic(auto, unfolding(crate::specs::MainCall::main_verdict))]
pub fn place_main(
    inner: f32,
    gap: f32,
    justify: u32,
    reversed: u32,
    items: LineLists,
    offsets: &mut [f32],
    used_start: &mut [f32],
    used_end: &mut [f32],
) -> Result<Done, Refusal>
    ensures { main_result result offsets.new used_start.new used_end.new
        ≡ main_call inner gap justify reversed (lists_of items.entry) offsets.old used_start.old used_end.old }
{
    check_main_shape(items, offsets.len(), used_start.len(), used_end.len())?;
    check_main_numbers(inner, gap, justify, reversed, items)?;
    main_axis::distribute_remaining_free_space(
        inner,
        gap,
        keywords::content_of(justify),
        reversed != 0,
        items,
        offsets,
        used_start,
        used_end,
    );
    Ok(Done {
        lines: 0,
        rounds: 0,
    })
}
