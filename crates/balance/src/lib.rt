// Balanced breaking (document 01, "Breaking"): the call, and what lends the search exactly the cells that it takes.
#![tactic(auto)]

ghost use Rattle.std.specs.Prelude.{◌≡◌, [], ◌≤◌, length};
ghost use Rattle.break_greedy.specs.Steps.{Breakable};
ghost use Rattle.balance.specs.Calls.{break_lent, room_for, Divides, BalancedCall};
ghost use Rattle.balance.specs.Parts.{Roomy, Searched};

use balance_division::{Breaking, divide};
use balance_run::Scratch;
use break_greedy::check_breaking;
use checks::shapes::has_work_room;
use checks::{Done, Refusal, no_mark};
use keywords::AvailableSpace;

// The search in the lent lists: the first n * n cells of `work` are for its choices and the 3 n after them for its
// tables, and `sums` is for the sums and two rows of totals.
fn search(breaking: Breaking, counts: &mut [u32], work: &mut [u32], sums: &mut [f64]) -> usize
    requires { Breakable breaking.limit breaking.gap breaking.sizes.now × Roomy (length breaking.sizes.now)
        (break_lent counts.old work.old sums.old) }
    ensures { Searched breaking.entry.limit breaking.entry.gap breaking.entry.minimum breaking.entry.sizes.now
        (break_lent counts.old work.old sums.old) result (break_lent counts.new work.new sums.new) }
{
    let n = breaking.sizes.len();
    let (opts, tables) = work.split_at_mut(n * n);
    let (fit, tables) = tables.split_at_mut(n);
    let (greedy, tables) = tables.split_at_mut(n);
    let (reach, _) = tables.split_at_mut(n);
    let (sums, totals) = sums.split_at_mut(n);
    let (prev, totals) = totals.split_at_mut(n);
    let (cur, _) = totals.split_at_mut(n);
    let scratch = Scratch {
        fit,
        greedy,
        reach,
        prev,
        cur,
    };
    divide(breaking, scratch, &mut counts[..n], opts, sums)
}

// The balanced division of accepted sizes, and all named work cells 0. The lists come one by one, here and in the other
// functions, as the C interface lends them. No entry point.
pub fn divide_lent(
    limit: AvailableSpace,
    gap: f32,
    minimum: u32,
    sizes: &[f32],
    counts: &mut [u32],
    work: &mut [u32],
    sums: &mut [f64],
) -> usize
    requires { Breakable limit gap sizes.now × Roomy (length sizes.now)
        (break_lent counts.old work.old sums.old) }
    ensures { Divides limit gap minimum sizes.now
        (break_lent counts.old work.old sums.old) result
        (break_lent counts.new work.new sums.new) }
{
    let n = sizes.len();
    let breaking = Breaking {
        limit,
        gap,
        minimum,
        sizes,
    };
    let lines = search(breaking, counts, work, sums);
    lists::clear(work, n * n, n * n + 3 * n, 0);
    lists::clear(sums, n, 3 * n, 0.0);
    lines
}

// Whether n items have room. A list of more than 1,024 items is refused whatever the room, so their square is never
// taken. It also serves callers that check codes of their own.
pub fn has_room(n: usize, counts: usize, work: usize, sums: usize) -> bool
    ensures { n ≤ 1024 → result ≡ room_for n counts work sums }
{
    n <= 1024 && n <= counts && has_work_room(n, work, sums)
}

// Balanced breaking of any bits.
pub fn balanced(
    limit: AvailableSpace,
    gap: f32,
    minimum: u32,
    sizes: &[f32],
    counts: &mut [u32],
    work: &mut [u32],
    sums: &mut [f64],
) -> Result<Done, Refusal>
    ensures { BalancedCall [] limit gap minimum sizes.now
        (break_lent counts.old work.old sums.old) result
        (break_lent counts.new work.new sums.new) }
{
    let room = has_room(sizes.len(), counts.len(), work.len(), sums.len());
    check_breaking(no_mark(), limit, gap, sizes, room)?;
    let lines = divide_lent(limit, gap, minimum, sizes, counts, work, sums);
    Ok(Done {
        lines: lines as u32,
        rounds: 0,
    })
}
