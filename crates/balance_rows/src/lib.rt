// The rows of the dynamic program: row k has the best division of the items from each start on into k lines. Parts of
// balanced breaking, behind its checks: no entry points.
#![tactic(auto)]

ghost use Rattle.std.specs.Prelude.{ℕ, ◌+◌, ◌-◌, ◌*◌, ◌≤◌, ◌<◌, length, get_or, ◌≡◌};
ghost use Rattle.std.specs.Float.{binary64, nan};
ghost use Rattle.std.specs.Float.Ieee.{mul};
ghost use Rattle.balance_sums.specs.Sums.{size_f};
ghost use Rattle.balance_choice.specs.Cells.{Safe, RowOut};
ghost use Rattle.balance_tables.specs.Tables.{Falling, FirstFor};
ghost use Rattle.balance_rows.specs.Program.{RowSafe, RowBase, OneRow, RowsSoFar};

use balance_choice::Row;
use balance_sums::Sums;
use std::ops::Range;

// Fills these starts of a row: the middle one by its choice, and the two halves by calls of itself, each with the ends
// that its starts may still need, of these ends.
fn fill_row(row: &Row, cur: &mut [f64], opts: &mut [u32], starts: Range<usize>, ends: Range<usize>)
    requires { Safe row.now.sums.up_to.now row.now.fit.now row.now.below.now row.now.max_end ends.end
        × (starts.end ≤ row.now.max_end + 1) × (length cur.old ≡ length row.now.below.now)
        × (length opts.old ≡ length row.now.below.now) }
    ensures { RowOut row.now.sums.up_to.now row.now.sums.gap.0 row.now.fit.now row.now.below.now row.now.max_end
        starts.start starts.end ends.start ends.end cur.old cur.new opts.old opts.new }
{
    if starts.start < starts.end {
        let start = starts.start + (starts.end - starts.start) / 2;
        let base = row.sums.base(start);
        let picked = row.pick(start, base, ends.start..ends.end);
        cur[start] = row.cost(base, picked.end).0;
        opts[start] = picked.end as u32;
        if starts.start < start {
            fill_row(row, cur, opts, starts.start..start, ends.start..picked.hi);
        }
        let next = start + 1;
        if next < starts.end {
            fill_row(row, cur, opts, next..starts.end, picked.lo..ends.end);
        }
    }
}

// The first row: one line takes all that is left. No entry point.
pub fn first_row(sums: Sums, prev: &mut [f64])
    requires { (length prev.old ≡ length sums.up_to.now) × (length sums.up_to.now ≤ 1024)
        × (0 < length sums.up_to.now) }
    ensures { (s : ℕ) → s < length sums.entry.up_to.now
        → get_or prev.new s nan ≡ mul binary64 (size_f sums.entry.up_to.now sums.entry.gap.0 s
        (length sums.entry.up_to.now - 1)) (size_f sums.entry.up_to.now sums.entry.gap.0 s
        (length sums.entry.up_to.now - 1)) }
{
    let last = sums.up_to.len() - 1;
    for start in 0..sums.up_to.len() {
        let size = sums.line_size(start, last);
        prev[start] = size.0 * size.0;
    }
}

// Copies the cells from `lo` up to `hi`, where there are any; one by one, since `copy_from_slice` calls `memmove` here,
// a name that the archive would need from outside.
fn copy_row(to: &mut [f64], from: &[f64], lo: usize, hi: usize)
    requires { (length to.old ≡ length from.now) × (hi ≤ length from.now) }
    ensures { (s : ℕ) → lo ≤ s → s < hi → get_or to.new s nan ≡ get_or from.now s nan }
{
    for s in lo..hi {
        to[s] = from[s];
    }
}

// The first start whose items greedy breaking puts on at most `lines` lines. `from` is such a start, or past the last.
// The counts fall, but no search by halves: each row asks from where the row below stopped, so that all rows together
// go over the counts once.
fn first_start(greedy: &[u32], from: usize, lines: usize) -> usize
    requires { Falling greedy.now × (from ≤ length greedy.now) × (get_or greedy.now from 0 ≤ lines) }
    ensures { FirstFor greedy.now lines result × (result ≤ from) }
{
    for start in (0..from).rev() {
        if lines < greedy[start] as usize {
            return start + 1;
        }
    }
    0
}

// One row: the starts from `start_lo` to `last`, divided into `lines` lines. What follows their first lines starts at
// `seen` or later. The three lent lists stay single, here and in `rows`: of a struct of them, one could
// not be read while another is lent.
fn one_row(
    sums: Sums,
    fit: &[u32],
    prev: &mut [f64],
    cur: &mut [f64],
    opts: &mut [u32],
    lines: usize,
    start_lo: usize,
    last: usize,
    seen: usize,
)
    requires { RowSafe sums.up_to.now fit.now prev.old lines × (length cur.old ≡ length prev.old)
        × (length opts.old ≡ length prev.old) }
    ensures { OneRow sums.entry.up_to.now sums.entry.gap.0 fit.now prev.old lines start_lo last
        seen prev.new opts.new }
{
    let max_end = prev.len() - lines;
    let end_lo = seen.saturating_sub(1);
    let start_hi = max_end.min(last) + 1;
    let row = Row {
        sums,
        fit,
        below: prev,
        max_end,
    };
    fill_row(&row, cur, opts, start_lo..start_hi, end_lo..max_end + 1);
    copy_row(prev, cur, start_lo, start_hi);
}

// What the tables say of the items from each start on: the last item of the longest line, greedy breaking's line count,
// and how far the first lines reach.
#[derive(Clone, Copy)]
pub struct Tables<'a> {
    pub fit: &'a [u32],
    pub greedy: &'a [u32],
    pub reach: &'a [u32],
}

// The rows for 2 lines up to `line_count`. A row has only the starts that the rows after it, or the read-back, ask for.
// Each lends its part of `opts` by a range: of cells written through `chunks_exact_mut` a proof knows nothing. No entry
// point.
pub fn rows(
    sums: Sums,
    tables: Tables,
    prev: &mut [f64],
    cur: &mut [f64],
    opts: &mut [u32],
    line_count: usize,
)
    requires { RowBase sums.up_to.now tables.fit.now tables.greedy.now tables.reach.now prev.old
        × (length cur.old ≡ length prev.old) × (1 ≤ line_count) × (line_count ≤ length prev.old)
        × (line_count * length prev.old ≤ length opts.old + length prev.old) }
    ensures { RowsSoFar sums.entry.up_to.now sums.entry.gap.0 tables.entry.fit.now tables.entry.greedy.now
        tables.entry.reach.now line_count prev.old prev.new opts.new (line_count + 1) }
{
    let n = sums.up_to.len();
    let mut row = 0;
    let mut seen = first_start(tables.greedy, n, 1);
    for lines in 2..line_count + 1 {
        let from = first_start(tables.greedy, seen, lines);
        let start_lo = from.max(line_count - lines);
        let last = tables.reach[line_count - lines] as usize;
        one_row(
            sums,
            tables.fit,
            prev,
            cur,
            &mut opts[row..row + n],
            lines,
            start_lo,
            last,
            seen,
        );
        seen = from;
        row += n;
    }
}
