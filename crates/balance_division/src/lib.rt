// The balanced division of accepted sizes, by the plain rule, with the lent work cells left zero. Parts of
// balanced breaking, behind its checks: no entry points.
#![tactic(auto)]

ghost use Rattle.std.specs.Prelude.{◌≡◌, ◌*◌, length};
ghost use Rattle.std.specs.Float.{binary64};
ghost use Rattle.std.specs.Float.Ieee.{of_bits};
ghost use Rattle.break_greedy.specs.Breaking.{limit_of};
ghost use Rattle.break_greedy.specs.Steps.{Breakable, LengthLimit};
ghost use Rattle.balance_rule.specs.Natural.{natural};
ghost use Rattle.balance_tables.specs.Tables.{LimitIs};
ghost use Rattle.balance_division.specs.Divided.{BalancedCounts, Cleared};

use balance_run::{Scratch, counts_of_sizes};
use balance_sums::Units;
use balance_tables::pixels::{to_size, to_units};
use keywords::AvailableSpace;

// What is divided into lines: sizes with a gap between neighbours, into as few lines as the limit allows, but no fewer
// than the minimum.
#[derive(Clone, Copy)]
pub struct Breaking<'a> {
    pub limit: AvailableSpace,
    pub gap: f32,
    pub minimum: u32,
    pub sizes: &'a [f32],
}

// The most that a line of several items may measure, in sixty-fourths, where there is any such bound. Under min-content
// none fits, and -1 says so, since no size is below 0: the search then compares numbers, whatever the limit.
fn most(limit: AvailableSpace) -> Option<Units>
    requires { LengthLimit limit }
    ensures { LimitIs (natural (limit_of limit)) result }
{
    match limit {
        AvailableSpace::Definite(x) => Some(to_units(x)),
        AvailableSpace::MinContent => Some(Units(-1.0)),
        AvailableSpace::MaxContent => None,
    }
}

// The balanced division of accepted sizes, in lists of exactly the cells that it takes. Of the lists to work in, those
// that a caller may lend (opts and sums) are left zero: they may hold anything before a call, so each cell is owed.
// These stay single beside the scratch lists, of which nothing is said afterwards. No entry point.
pub fn divide(
    breaking: Breaking,
    scratch: Scratch,
    counts: &mut [u32],
    opts: &mut [u32],
    sums: &mut [f64],
) -> usize
    requires breakable { Breakable breaking.limit breaking.gap breaking.sizes.now }
    requires room { (length counts.old ≡ length breaking.sizes.now)
        × (length opts.old ≡ length breaking.sizes.now * length breaking.sizes.now)
        × (length scratch.fit.now ≡ length breaking.sizes.now)
        × (length scratch.greedy.now ≡ length breaking.sizes.now)
        × (length scratch.reach.now ≡ length breaking.sizes.now) × (length sums.old ≡ length breaking.sizes.now)
        × (length scratch.prev.now ≡ length breaking.sizes.now)
        × (length scratch.cur.now ≡ length breaking.sizes.now) }
    ensures balanced_counts { BalancedCounts breaking.entry.limit breaking.entry.gap breaking.entry.minimum
        breaking.entry.sizes.now result counts.new }
    ensures cleared { Cleared 0 opts.old opts.new × Cleared (of_bits binary64 0) sums.old sums.new }
{
    if breaking.sizes.is_empty() {
        return 0;
    }
    let gap = to_size(breaking.gap);
    let most = most(breaking.limit);
    let minimum = breaking.minimum as usize;
    let lines = counts_of_sizes(
        breaking.sizes,
        gap,
        most,
        minimum,
        scratch,
        sums,
        opts,
        counts,
    );
    lists::clear(opts, 0, opts.len(), 0);
    lists::clear(sums, 0, sums.len(), 0.0);
    lines
}
