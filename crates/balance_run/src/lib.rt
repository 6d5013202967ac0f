// The whole run: from the items' sizes, or their sums, to the balanced division's counts by line. A part of balanced
// breaking, behind its checks: no entry point.
#![tactic(auto)]

ghost use Rattle.std.specs.Prelude.{◌≡◌, not, ℕ, ◌+◌, ◌*◌, ◌≤◌, ◌<◌, T, length, get_or};
ghost use Rattle.std.specs.Float.Ieee.{is_nan};
ghost use Rattle.std.specs.Float.{nan};
ghost use Rattle.balance_run.specs.Reading.{RowsReadable, ReadOut};
ghost use Rattle.balance_run.specs.Run.{BalanceIn, BalanceOut, RunIn, RunOut};

use balance_rows::{Tables, first_row, rows};
use balance_sums::{Sums, Units};
use balance_tables::pixels::add_up;
use balance_tables::{fit_ends, forward, suffix_greedy};

// The lists that the search fills and forgets, of a cell for each item: the tables, and the totals of the row below and
// of the row under way.
#[derive(Drop)]
pub struct Scratch<'a> {
    pub fit: &'a mut [u32],
    pub greedy: &'a mut [u32],
    pub reach: &'a mut [u32],
    pub prev: &'a mut [f64],
    pub cur: &'a mut [f64],
}

// Reads the division out of the rows' choices, front to back.
fn read_back(opts: &[u32], counts: &mut [u32], n: usize, line_count: usize)
    requires { RowsReadable opts.now n line_count × (n ≤ 1024) × (1 ≤ line_count) × (line_count ≤ n)
        × (line_count ≤ length counts.old) × (line_count * n ≤ length opts.now + n) }
    ensures { ReadOut opts.now n line_count counts.new }
{
    let mut start = 0;
    for i in 0..line_count - 1 {
        let end = opts[(line_count - i - 2) * n + start] as usize;
        counts[i] = (end - start + 1) as u32;
        start = end + 1;
    }
    counts[line_count - 1] = (n - start) as u32;
}

// The balanced division of the items whose sums are given: counts by line. Returns the number of lines.
fn line_item_counts(
    sums: Sums,
    limit: Option<Units>,
    minimum: usize,
    scratch: Scratch,
    opts: &mut [u32],
    counts: &mut [u32],
) -> usize
    requires given { BalanceIn sums.up_to.now sums.gap.0 limit × (1 ≤ length sums.up_to.now)
        × (length sums.up_to.now ≤ 1024) }
    requires room { (length scratch.prev.now ≡ length sums.up_to.now)
        × (length scratch.cur.now ≡ length sums.up_to.now) × (length scratch.fit.now ≡ length sums.up_to.now)
        × (length scratch.greedy.now ≡ length sums.up_to.now) × (length scratch.reach.now ≡ length sums.up_to.now)
        × (length opts.old ≡ length sums.up_to.now * length sums.up_to.now)
        × (length counts.old ≡ length sums.up_to.now) }
    ensures { BalanceOut sums.entry.up_to.now sums.entry.gap.0 limit minimum result counts.new }
{
    let n = sums.up_to.len();
    let Scratch {
        fit,
        greedy,
        reach,
        prev,
        cur,
    } = scratch;
    fit_ends(sums, limit, fit);
    suffix_greedy(fit, greedy);
    let fewest = greedy[0] as usize;
    let held = minimum.clamp(1, n);
    let line_count = fewest.max(held);
    forward(fit, reach);
    first_row(sums, prev);
    rows(
        sums,
        Tables { fit, greedy, reach },
        prev,
        cur,
        opts,
        line_count,
    );
    read_back(opts, counts, n, line_count);
    line_count
}

// The balanced division of accepted sizes. The counts past the last line are 0. Sums, choices and counts are read after
// the scratch lists are done with, and stay single. No entry point.
pub fn counts_of_sizes(
    sizes: &[f32],
    gap: Units,
    limit: Option<Units>,
    minimum: usize,
    scratch: Scratch,
    sums: &mut [f64],
    opts: &mut [u32],
    counts: &mut [u32],
) -> usize
    requires given { RunIn sizes.now gap.0 limit × (1 ≤ length sizes.now)
        × (length sizes.now ≤ 1024) × ((i : ℕ) → i < length sizes.now → T (not (is_nan (get_or sizes.now i nan)))) }
    requires room { (length sums.old ≡ length sizes.now) × (length scratch.prev.now ≡ length sizes.now)
        × (length scratch.cur.now ≡ length sizes.now) × (length scratch.fit.now ≡ length sizes.now)
        × (length scratch.greedy.now ≡ length sizes.now) × (length scratch.reach.now ≡ length sizes.now)
        × (length opts.old ≡ length sizes.now * length sizes.now) × (length counts.old ≡ length sizes.now) }
    ensures { RunOut sizes.now gap.0 limit minimum result counts.new }
{
    add_up(sizes, gap, sums);
    let lines = line_item_counts(
        Sums { up_to: sums, gap },
        limit,
        minimum,
        scratch,
        opts,
        counts,
    );
    lists::clear(counts, lines, sizes.len(), 0);
    lines
}
