// The tables that the rows are worked out from: where the longest line from each start ends, how many lines greedy
// breaking makes of the items from each start on, and how far the first lines reach. Parts of balanced breaking, behind
// its checks: no entry points.
#![tactic(auto)]

ghost use Rattle.std.specs.Prelude.{length, get_or, ◌≡◌, ◌+◌, ◌≤◌, ◌<◌};
ghost use Rattle.balance_tables.specs.Tables.{fits_f, StretchOut, FitsOut, FitRange, CountsFrom, Rising, Reaches};

use balance_sums::{Sums, Units};

pub mod pixels;

// Whether a line of several items, of this size, fits: the limit is the most that it may measure, where there is any
// such bound.
fn fits(limit: Option<Units>, size: Units) -> bool
    ensures { result ≡ fits_f limit size.0 }
{
    limit.is_none_or(|most| size.0 <= most.0)
}

// How far a line from `start` that reaches `from` stretches.
fn stretch(sums: Sums, limit: Option<Units>, start: usize, from: usize) -> usize
    requires { (start ≤ from) × (from < length sums.up_to.now) }
    ensures { StretchOut sums.entry.up_to.now sums.entry.gap.0 limit start from result }
{
    let last = sums.up_to.len() - 1;
    for end in from..last {
        if !fits(limit, sums.line_size(start, end + 1)) {
            return end;
        }
    }
    last
}

// The last item of the longest line from each start. No entry point.
pub fn fit_ends(sums: Sums, limit: Option<Units>, fit: &mut [u32])
    requires { (length fit.old ≡ length sums.up_to.now) × (length sums.up_to.now ≤ 1024) }
    ensures { FitsOut sums.entry.up_to.now sums.entry.gap.0 limit fit.new }
{
    let mut end: usize = 0;
    for start in 0..sums.up_to.len() {
        end = stretch(sums, limit, start, end.max(start));
        fit[start] = end as u32;
    }
}

// How many lines greedy breaking makes of the items from each start on. No entry point.
pub fn suffix_greedy(fit: &[u32], greedy: &mut [u32])
    requires { (length greedy.old ≡ length fit.now) × (length fit.now ≤ 1024) × FitRange fit.now }
    ensures { CountsFrom fit.now greedy.new 0 }
{
    for start in (0..fit.len()).rev() {
        let end = fit[start] as usize;
        let rest = greedy.get(end + 1).copied().unwrap_or(0);
        greedy[start] = rest + 1;
    }
}

// Where the longest line from `start` ends: the next start. At the last item's end there is no line.
fn past(fit: &[u32], start: usize) -> usize
    requires { (length fit.now ≤ 1024) × FitRange fit.now }
    ensures { (start < length fit.now → result ≡ get_or fit.now start 0 + 1)
        × (length fit.now ≤ start → result ≡ start) }
{
    fit.get(start).map_or(start, |end| *end as usize + 1)
}

// How far the first lines reach: no division's line after the first `i` lines starts past cell `i`. No entry point.
pub fn forward(fit: &[u32], reach: &mut [u32])
    requires { (length reach.old ≡ length fit.now) × (length fit.now ≤ 1024) × FitRange fit.now
        × Rising fit.now }
    ensures { Reaches fit.now reach.new }
{
    let mut start = 0;
    for i in 0..reach.len() {
        reach[i] = start as u32;
        start = past(fit, start);
    }
}
