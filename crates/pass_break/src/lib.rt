// Breaking as the whole pass does it, by the container's wrap mode (document 01, "Breaking"), of the items that the
// table holds. The parts work on what the pass's checks have accepted: none is an entry point.
#![tactic(auto)]

ghost use Rattle.std.specs.Prelude.{◌≡◌, ◌++◌, ◌≤◌, length, drop};
ghost use Rattle.balance.specs.Calls.{break_lent};
ghost use Rattle.break_greedy.specs.Steps.{Breakable, Listed};
ghost use Rattle.flex_table.specs.Table.{Wide, items_in};
ghost use Rattle.pass_break.specs.Parts.{WrapRoom};
ghost use Rattle.pass_break.specs.Wrapping.{one_line, Wrapped};
ghost use Rattle.pass_break.specs.Outer.{outer_sizes};
ghost use Rattle.pass_break.specs.BreakStage.{Breaks, LinesBroken};

use balance::divide_lent;
use break_greedy::greedy_checked;
use flex::Item;
use keywords::{AvailableSpace, Mode, mode_of, space_of, wrap_of};
use pass_container::Container;

// The sizes that breaking takes: the hypothetical outer main sizes of the table's first n items. The table is longer,
// and `LinesBroken` speaks of its first n. No entry point.
pub fn outer_sizes(table: &[Item], n: usize, sizes: &mut [f32])
    requires { Wide table.now n × (n ≤ length sizes.old) }
    ensures { sizes.new ≡ outer_sizes (items_in table.now 0 n)
        ++ drop n sizes.old }
{
    for i in 0..n {
        let item = table[i];
        sizes[i] = item.outer_size(item.hypothetical_size());
    }
}

// One line of all items, whatever the limit; no items make no line.
fn single_line(n: usize, counts: &mut [u32]) -> usize
    requires { (n ≤ 1024) × (n ≤ length counts.old) }
    ensures { Listed n (one_line n) counts.old result counts.new }
{
    if n == 0 {
        return 0;
    }
    counts[0] = n as u32;
    counts[1..n].fill(0);
    1
}

// The lines of the sizes, by wrap mode. The lists are single, as the breaking calls take them. No entry point: what it
// asks is what the checks show.
pub fn break_lines(
    mode: Mode,
    limit: AvailableSpace,
    gap: f32,
    minimum: u32,
    sizes: &[f32],
    counts: &mut [u32],
    work: &mut [u32],
    sums: &mut [f64],
) -> usize
    requires { Breakable limit gap sizes.now × WrapRoom mode (length sizes.now)
        (break_lent counts.old work.old sums.old) }
    ensures { Wrapped mode limit gap minimum sizes.now
        (break_lent counts.old work.old sums.old) result
        (break_lent counts.new work.new sums.new) }
{
    match mode {
        Mode::Single => single_line(sizes.len(), counts),
        Mode::Greedy => greedy_checked(limit, gap, sizes, counts),
        Mode::Balanced => divide_lent(limit, gap, minimum, sizes, counts, work, sums),
    }
}

// The lines of a table's items, by the wrap mode: counts by line, and how many lines there are. No entry point: it asks
// what the checks show.
pub fn break_items(
    c: Container,
    n: usize,
    table: &[Item],
    counts: &mut [u32],
    work: &mut [u32],
    sums: &mut [f64],
) -> usize
    requires { Breaks c n table.now (break_lent counts.old work.old sums.old) }
    ensures { LinesBroken c n table.now (break_lent counts.old work.old
        sums.old) result (break_lent counts.new work.new sums.new) }
{
    // In the frame, not in a `Vec`: no heap.
    let mut sizes = [0.0; 1024];
    outer_sizes(table, n, &mut sizes);
    break_lines(
        mode_of(wrap_of(c.wrap)),
        space_of(c.limit_kind, c.limit),
        grid::clean(c.gap_main),
        c.minimum_lines,
        &sizes[..n],
        counts,
        work,
        sums,
    )
}
