// Breaking items into lines: what fits, and greedy breaking (document 01, "Breaking").
#![tactic(auto)]

ghost use Rattle.std.specs.Prelude.{◌≡◌, List, [], ◌≤◌, ◌<◌, length, ℤ};
ghost use Rattle.grid.specs.Grid.{sixty_fourths};
ghost use Rattle.grid.specs.Values.{At};
ghost use Rattle.checks.specs.Domain.{Number};
ghost use Rattle.checks.specs.Marks.{least_of};
ghost use Rattle.break_greedy.specs.Breaking.{limit_of, fits, greedy};
ghost use Rattle.break_greedy.specs.Calls.{breaking_verdict, units, greedy_result, greedy_call};
ghost use Rattle.break_greedy.specs.Steps.{LengthLimit, Breakable, LineEnd, Counted, Listed};

use break_limit::mark_space;
use checks::{Done, Kind, Mark, Refusal};
use keywords::AvailableSpace;
use lists::clear;

// Whether a line of several items, of this size, fits: greedy breaking asks it once the limit has passed the checks. No
// entry point.
fn line_fits(limit: AvailableSpace, size: f32) -> bool
    requires { LengthLimit limit }
    ensures { (z : ℤ) → At 64 size z → result ≡ fits (limit_of limit) z }
{
    match limit {
        AvailableSpace::Definite(x) => size <= x,
        AvailableSpace::MinContent => false,
        AvailableSpace::MaxContent => true,
    }
}

// Checks 1 to 6 of a breaking call. `codes` is the mark of codes that were taken before the limit.
pub fn check_breaking(
    codes: Mark,
    limit: AvailableSpace,
    gap: f32,
    sizes: &[f32],
    room: bool,
) -> Result<(), Refusal>
    ensures { (cs : List Number) → codes.0 ≡ least_of cs 0
        → result ≡ breaking_verdict cs limit gap sizes.now room }
{
    checks::check_shape(sizes.len(), room)?;
    let container = checks::least(
        mark_space(limit),
        checks_number::mark_float(Kind::Size, gap, 0),
    );
    let items = checks_list::mark_floats(Kind::Length, sizes);
    checks::judge(checks::least(checks::least(codes, container), items))?;
    checks::check_sum(checks_list::sum_floats(sizes, gap))
}

// The end of the line that starts at an item. The sums are exact: every one is on the grid and within 2^24
// sixty-fourths.
fn line_end(sizes: &[f32], gap: f32, limit: AvailableSpace, start: usize) -> usize
    requires { Breakable limit gap sizes.now × (start < length sizes.now) }
    ensures { LineEnd limit gap sizes.now start result }
{
    let mut size = sizes[start];
    for i in start + 1..sizes.len() {
        let next = size + (sizes[i] + gap);
        if !line_fits(limit, next) {
            return i;
        }
        size = next;
    }
    sizes.len()
}

// The counts by line, in the first cells. A `while`: how many lines there are shows only as the items are used up.
fn greedy_counts(sizes: &[f32], gap: f32, limit: AvailableSpace, counts: &mut [u32]) -> usize
    requires { Breakable limit gap sizes.now × (length sizes.now ≤ length counts.old) }
    ensures { Counted (greedy (limit_of limit) (sixty_fourths gap) (units sizes.now))
        counts.old result counts.new }
{
    let mut start = 0;
    let mut n = 0;
    while start < sizes.len() {
        let end = line_end(sizes, gap, limit, start);
        counts[n] = (end - start) as u32;
        n += 1;
        start = end;
    }
    n
}

// Greedy breaking of sizes that the checks have accepted: no entry point.
pub fn greedy_checked(limit: AvailableSpace, gap: f32, sizes: &[f32], counts: &mut [u32]) -> usize
    requires { Breakable limit gap sizes.now × (length sizes.now ≤ length counts.old) }
    ensures { Listed (length sizes.now) (greedy (limit_of limit) (sixty_fourths gap)
        (units sizes.now)) counts.old result counts.new }
{
    let n = greedy_counts(sizes, gap, limit, counts);
    clear(counts, n, sizes.len(), 0);
    n
}

// Greedy breaking of any bits.
pub fn greedy(
    limit: AvailableSpace,
    gap: f32,
    sizes: &[f32],
    counts: &mut [u32],
) -> Result<Done, Refusal>
    ensures { greedy_result result counts.new ≡ greedy_call [] limit gap sizes.now
        counts.old }
{
    let room = sizes.len() <= counts.len();
    check_breaking(checks::no_mark(), limit, gap, sizes, room)?;
    let lines = greedy_checked(limit, gap, sizes, counts);
    Ok(Done {
        lines: lines as u32,
        rounds: 0,
    })
}
