// The whole pass on plain lists: breaking, flexing, the main axis and the cross axis of one container, each stage on
// what the one before it answers. Stages are no entry points: they ask what the checks have shown.
#![tactic(auto)]

ghost use Rattle.std.specs.Prelude.{◌≡◌};
ghost use Rattle.pass.specs.Laid.{pass_lent, Laid};
ghost use Rattle.pass.specs.Lent.{lent_of, lengths_of, SameLists};
ghost use Rattle.pass.specs.Stages.{CrossAsked, CrossLaid, MainAsked, MainLaid, PassAccepted};
ghost use Rattle.checks.specs.Domain.{summed};
ghost use Rattle.pass_checks.specs.Checks.{pass_sum};
ghost use Rattle.pass.specs.Pass.{PassAnswered, PassCall};
ghost use Rattle.pass.specs.Checked.{PassChecked};

use checks::Refusal;
use flex::Item;
use pass_break::break_items;
use pass_checks::{LentLengths, check_pass};
use pass_container::{Container, Items};
use pass_cross::{items_across, lines_along};
use pass_main::place_main_axis;

// The cross axis: the lines along it, and then the items across each line. Answers the container's inner cross size.
// The lists are single for the reason that `lay_out` gives.
fn lay_cross(
    c: Container,
    items: Items,
    counts: &[u32],
    lines: &mut [f32],
    placed: &mut [f32],
) -> f32
    requires { CrossAsked items.count items.numbers.now items.codes.now counts.now lines.old placed.old }
    ensures { CrossLaid c items.entry.count items.entry.numbers.now items.entry.codes.now counts.now result
        lines.old placed.old lines.new placed.new }
{
    let inner = lines_along(c, items, counts, lines);
    items_across(c, items, counts, &lines[..items.count], placed);
    inner
}

// How many lines there are, and the sum of their rounds.
#[derive(Clone, Copy)]
pub struct Lines {
    pub count: usize,
    pub rounds: u32,
}

// The lines, and the main axis of each. The lists are single for the reason that `lay_out` gives.
fn lay_main(
    c: Container,
    items: Items,
    table: &[Item],
    placed: &mut [f32],
    counts: &mut [u32],
    rounds: &mut [u32],
    free: &mut [i32],
    work: &mut [u32],
    sums: &mut [f64],
) -> Lines
    requires { MainAsked c items.count table.now items.numbers.now items.codes.now placed.old counts.old rounds.old
        free.old work.old sums.old }
    ensures { MainLaid c items.entry.count table.now items.entry.numbers.now items.entry.codes.now placed.old
        counts.old rounds.old free.old work.old sums.old
        result.count result.rounds placed.new counts.new rounds.new free.new
        work.new sums.new }
{
    let count = break_items(c, items.count, table, counts, work, sums);
    let rounds = place_main_axis(c, items, table, &counts[..count], placed, free, rounds);
    Lines { count, rounds }
}

// What an accepted run answers: the lines, the sum of their rounds, and the container's inner cross size.
#[derive(Clone, Copy)]
pub struct Layout {
    pub lines: u32,
    pub rounds: u32,
    pub inner_cross: f32,
}

// All of an accepted run. No entry point. The lent lists come one by one, since the counts of the lines are read while
// others are written: of one `&mut` to them all, the proofs do not cover a part that is read while another is lent.
pub fn lay_out(
    c: Container,
    items: Items,
    table: &[Item],
    placed: &mut [f32],
    lines: &mut [f32],
    counts: &mut [u32],
    rounds: &mut [u32],
    free: &mut [i32],
    work: &mut [u32],
    sums: &mut [f64],
) -> Layout
    requires { PassAccepted c items.count table.now items.numbers.now items.codes.now
        (pass_lent placed.old lines.old counts.old rounds.old free.old work.old sums.old) }
    ensures { Laid c items.entry.count items.entry.numbers.now items.entry.codes.now
        (pass_lent placed.old lines.old counts.old rounds.old free.old work.old sums.old) result.lines result.rounds
        result.inner_cross (pass_lent placed.new lines.new counts.new rounds.new free.new work.new sums.new) }
{
    let main = lay_main(c, items, table, placed, counts, rounds, free, work, sums);
    let inner_cross = lay_cross(c, items, &counts[..main.count], lines, placed);
    Layout {
        lines: main.count as u32,
        rounds: main.rounds,
        inner_cross,
    }
}

// The lists that a pass is lent. `placed` takes eight lists of n: main size, offset, start and end margin, and the same
// on the cross axis; `lines` two: the lines' cross sizes and offsets; `counts`, `rounds` and `free` a cell for each
// line. `work` and `sums` are cells that balanced breaking works in.
#[derive(Drop)]
pub struct Lent<'a> {
    pub placed: &'a mut [f32],
    pub lines: &'a mut [f32],
    pub counts: &'a mut [u32],
    pub rounds: &'a mut [u32],
    pub free: &'a mut [i32],
    pub work: &'a mut [u32],
    pub sums: &'a mut [f64],
}

impl<'a> Lent<'a> {
    pub fn lengths(&self) -> LentLengths
        ensures { result ≡ lengths_of (lent_of self.now) }
    {
        LentLengths {
            placed: self.placed.len(),
            lines: self.lines.len(),
            counts: self.counts.len(),
            rounds: self.rounds.len(),
            free: self.free.len(),
            work: self.work.len(),
            sums: self.sums.len(),
        }
    }
}

// Check 6, on the items as they are read, and then all stages. Checks 1 to 5 have passed.
fn pass_checked(c: Container, items: Items, lent: &mut Lent) -> Result<Layout, Refusal>
    requires { PassChecked c items.count items.numbers.now items.codes.now
        (lent_of lent.old) }
    ensures answered { PassAnswered (summed (pass_sum c items.entry.count items.entry.numbers.now
        items.entry.codes.now)) c items.entry.count items.entry.numbers.now items.entry.codes.now (lent_of lent.old)
        result (lent_of lent.new) }
    ensures same_lists { SameLists lent.old lent.new }
{
    // In the frame, not in a `Vec`: no heap.
    let mut table = [Item::default(); 1024];
    pass_main::reading::read_main(items, &mut table);
    let gap = grid::clean(c.gap_main);
    checks::check_sum(flex_table::sum::outer_sum(&table[..items.count], gap))?;
    Ok(lay_out(
        c,
        items,
        &table,
        lent.placed,
        lent.lines,
        lent.counts,
        lent.rounds,
        lent.free,
        lent.work,
        lent.sums,
    ))
}

// The whole pass of any bits. The numbers are fourteen lists of n cells one after another: base, minimum, maximum,
// padding plus border, grow, shrink, start and end margin (main axis); measured size, minimum, maximum, padding plus
// border, start and end margin (cross axis). The codes are eight: has a maximum, auto start, auto end (main axis); has
// a maximum, auto start, auto end, `align-self`, auto size (cross axis).
pub fn pass(
    c: Container,
    n: usize,
    numbers: &[f32],
    codes: &[u32],
    lent: &mut Lent,
) -> Result<Layout, Refusal>
    ensures called { PassCall c n numbers.now codes.now (lent_of lent.old) result (lent_of lent.new) }
    ensures same_lists { SameLists lent.old lent.new }
{
    check_pass(c, n, numbers, codes, lent.lengths())?;
    let items = Items {
        count: n,
        numbers,
        codes,
    };
    pass_checked(c, items, lent)
}
