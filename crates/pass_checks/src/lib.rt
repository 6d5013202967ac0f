// Checks 1 to 5 of the whole pass (document 01, "Domain and refusal numbers"): the lengths of its lists, and the
// numbers that it takes.
#![tactic(auto)]

ghost use Rattle.std.specs.Prelude.{◌≡◌, ◌+◌, ◌≤◌, length};
ghost use Rattle.checks.specs.Domain.{shape, then};
ghost use Rattle.checks.specs.Marks.{least_of, least_up_to, least_mark, judged};
ghost use Rattle.flex_checks.specs.Input.{input_of};
ghost use Rattle.place_checks.specs.Numbers.{across_numbers_at};
ghost use Rattle.pass_container.specs.Columns.{main_lists, cross_items, align_self, auto_size};
ghost use Rattle.pass_container.specs.Container.{break_mode};
ghost use Rattle.pass_checks.specs.Checks.{room_to_break, pass_room, pass_container_numbers, pass_input};

use checks::shapes::has_work_room;
use checks::{Kind, Mark, Refusal, least};
use checks_number::{mark_code, mark_given};
use keywords::{Mode, mode_of, wrap_of};
use pass_container::{Container, Items};

// The lengths of the lists that the pass is lent.
#[derive(Clone, Copy)]
pub struct LentLengths {
    pub placed: usize,
    pub lines: usize,
    pub counts: usize,
    pub rounds: usize,
    pub free: usize,
    pub work: usize,
    pub sums: usize,
}

// Only balanced breaking needs cells to work in.
fn has_room_to_break(n: usize, mode: Mode, work: usize, sums: usize) -> bool
    requires { n ≤ 1024 }
    ensures { result ≡ room_to_break n mode work sums }
{
    match mode {
        Mode::Single | Mode::Greedy => true,
        Mode::Balanced => has_work_room(n, work, sums),
    }
}

// Checks 1 and 2, from the lengths of the lists. More than 1,024 items are refused whatever the room, so their square
// is never taken.
#[tactic(auto, unfolding(crate::specs::Checks::pass_room))]
fn check_lists(
    n: usize,
    mode: Mode,
    numbers: usize,
    codes: usize,
    lent: LentLengths,
) -> Result<(), Refusal>
    ensures { result ≡ shape n (pass_room n mode numbers codes lent.placed lent.lines lent.counts lent.rounds
        lent.free lent.work lent.sums) }
{
    if 1024 < n {
        return Err(Refusal::TooManyItems);
    }
    let even = numbers == 14 * n && codes == 8 * n;
    let by_item = 8 * n <= lent.placed;
    let by_line = 2 * n <= lent.lines && n <= lent.counts && n <= lent.rounds && n <= lent.free;
    let to_break = has_room_to_break(n, mode, lent.work, lent.sums);
    checks::check_shape(n, even && by_item && by_line && to_break)
}

// The marks of the main axis's numbers, the container's inner size and gap among them.
fn mark_main(inner: f32, gap: f32, items: Items) -> Mark
    ensures { result.0 ≡ least_mark (input_of inner gap
        (main_lists items.entry.count items.entry.numbers.now items.entry.codes.now)) }
{
    flex_checks::mark_numbers(inner, gap, items.main())
}

// The marks of the container's other numbers. The limit is taken under every wrap mode.
fn mark_container(c: Container) -> Mark
    ensures { result.0 ≡ least_of (pass_container_numbers c) 0 }
{
    let cross = place_checks::numbers::mark_cross(c.into());
    let limit = mark_given(Kind::Length, c.limit, c.limit_kind == 0, 0);
    let m = least(mark_code(13, c.align_content, 0), least(limit, cross));
    let m = least(mark_code(13, c.justify_content, 0), m);
    let m = least(mark_code(3, c.direction, 0), m);
    least(mark_code(2, c.limit_kind, 0), m)
}

// The marks of the items' numbers on the cross axis.
fn mark_across(items: Items) -> Mark
    ensures { result.0 ≡ least_up_to (λ i. least_of (across_numbers_at
        (cross_items items.entry.count items.entry.numbers.now items.entry.codes.now)
        (align_self items.entry.count items.entry.codes.now)
        (auto_size items.entry.count items.entry.codes.now) i) (i + 1)) items.entry.count }
{
    place_checks::marks::mark_across(items.across())
}

// Checks 3 to 5.
fn check_numbers(c: Container, items: Items) -> Result<(), Refusal>
    ensures { result ≡ judged (least_mark (pass_input c items.entry.count items.entry.numbers.now
        items.entry.codes.now)) }
{
    let main = mark_main(c.inner_main, c.gap_main, items);
    let across = mark_across(items);
    checks::judge(least(main, least(mark_container(c), across)))
}

// Checks 1 to 5, of the items' lists and of the lengths of the lent ones.
pub fn check_pass(
    c: Container,
    n: usize,
    numbers: &[f32],
    codes: &[u32],
    lent: LentLengths,
) -> Result<(), Refusal>
    ensures { result ≡ then (shape n (pass_room n (break_mode c) (length numbers.now) (length codes.now) lent.placed
        lent.lines lent.counts lent.rounds lent.free lent.work lent.sums))
        (judged (least_mark (pass_input c n numbers.now codes.now))) }
{
    check_lists(
        n,
        mode_of(wrap_of(c.wrap)),
        numbers.len(),
        codes.len(),
        lent,
    )?;
    check_numbers(
        c,
        Items {
            count: n,
            numbers,
            codes,
        },
    )
}
