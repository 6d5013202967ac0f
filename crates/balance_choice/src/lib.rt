// The choice of one start of a row: the end of its line, among the ends that it may have. Parts of balanced breaking,
// behind its checks: no entry points.
#![tactic(auto)]

ghost use Rattle.std.specs.Prelude.{cond, false, length, ◌≡◌, ◌+◌, ◌≤◌, ◌<◌};
ghost use Rattle.std.specs.Float.Ieee.{le};
ghost use Rattle.balance_sums.specs.Sums.{base_f};
ghost use Rattle.balance_choice.specs.Cells.{cost_f, zero_f, FirstPlain, LeastOf, choose_f, Safe, PickOut};

use balance_sums::{Sums, Units};
use std::ops::Range;

// The total of line scores: squares of whole sixty-fourths.
#[derive(Clone, Copy)]
pub struct Score(pub f64);

// A row as its choices read it: the sums, the last item of the longest line from each start, the totals of the row
// below, and the last end that leaves an item for each of the lines that follow.
#[derive(Clone, Copy)]
pub struct Row<'a> {
    pub sums: Sums<'a>,
    pub fit: &'a [u32],
    pub below: &'a [f64],
    pub max_end: usize,
}

// What a start chose: the last item of its line, the first end that later starts may need, and the end before which
// earlier starts find theirs.
#[derive(Clone, Copy)]
pub struct Picked {
    pub end: usize,
    pub lo: usize,
    pub hi: usize,
}

impl<'a> Row<'a> {
    // What a line with this base that ends with the item `end`, and the best division after it, cost. No entry point.
    pub fn cost(self, base: Units, end: usize) -> Score
        requires { (end < length self.sums.up_to.now) × (end + 1 < length self.below.now) }
        ensures { result.0 ≡ cost_f self.entry.sums.up_to.now self.entry.below.now base.0 end }
    {
        let size = self.sums.up_to[end] - base.0;
        Score(size * size + self.below[end + 1])
    }

    // Whether a zero item follows the item `end`.
    fn zero_after(self, end: usize) -> bool
        requires { end + 1 < length self.sums.up_to.now }
        ensures { result ≡ zero_f self.entry.sums.up_to.now self.entry.sums.gap.0 end }
    {
        self.sums.up_to[end + 1] - self.sums.up_to[end] == self.sums.gap.0
    }

    // The first end from `from` on that no zero item follows, or where there is none below `stop`, the first past them.
    fn skip_zeros(self, from: usize, stop: usize) -> usize
        requires { stop < length self.sums.up_to.now }
        ensures { FirstPlain self.entry.sums.up_to.now self.entry.sums.gap.0 from stop result }
    {
        for end in from..stop {
            if !self.zero_after(end) {
                return end;
            }
        }
        from.max(stop)
    }

    // Whether `end`, at this cost, is taken before an earlier end that costs `least`.
    fn beats(self, end: usize, cost: Score, least: Score) -> bool
        requires { end + 1 < length self.sums.up_to.now }
        ensures { result ≡ cond (zero_f self.entry.sums.up_to.now self.entry.sums.gap.0 end) false
            (le cost.0 least.0) }
    {
        if self.zero_after(end) {
            false
        } else {
            cost.0 <= least.0
        }
    }

    // The last of the cheapest ends from `first` up to `stop` that no zero item follows. None follows `first`.
    fn least(self, base: Units, first: usize, stop: usize) -> usize
        requires { (length self.sums.up_to.now ≡ length self.below.now) × (first < stop)
            × (stop < length self.below.now) × (zero_f self.sums.up_to.now self.sums.gap.0 first ≡ false) }
        ensures { LeastOf self.entry.sums.up_to.now self.entry.sums.gap.0 self.entry.below.now base.0
            first stop result }
    {
        let mut best = first;
        let mut best_cost = self.cost(base, first);
        for end in first + 1..stop {
            let cost = self.cost(base, end);
            if self.beats(end, cost, best_cost) {
                best = end;
                best_cost = cost;
            }
        }
        best
    }

    // `near`, the choice among the ends that no zero item follows, or `far`, the longest line, where a zero item
    // follows that and it costs no more.
    fn choose(self, base: Units, near: usize, far: usize) -> usize
        requires { (length self.sums.up_to.now ≡ length self.below.now) × (near + 1 < length self.below.now)
            × (far + 1 < length self.below.now) }
        ensures { result ≡ choose_f self.entry.sums.up_to.now self.entry.sums.gap.0 self.entry.below.now base.0
            near far }
    {
        if self.zero_after(far) {
            let a = self.cost(base, far);
            let b = self.cost(base, near);
            if a.0 <= b.0 { far } else { near }
        } else {
            near
        }
    }

    // The choice of one start, whose lines have this base, from these ends. No entry point.
    pub fn pick(self, start: usize, base: Units, ends: Range<usize>) -> Picked
        requires { Safe self.sums.up_to.now self.fit.now self.below.now self.max_end ends.end
            × (start ≤ self.max_end) × (base.0 ≡ base_f self.sums.up_to.now self.sums.gap.0 start) }
        ensures { PickOut self.entry.sums.up_to.now self.entry.sums.gap.0 self.entry.fit.now self.entry.below.now
            self.entry.max_end ends.start ends.end start result.end result.lo result.hi }
    {
        let reach = self.fit[start] as usize;
        let from = ends.start.max(start);
        let stop = ends.end.min(reach + 1);
        let first = self.skip_zeros(from, stop);
        let far = reach.min(self.max_end);
        if first < stop {
            let near = self.least(base, first, stop);
            let end = self.choose(base, near, far);
            Picked {
                end,
                lo: near,
                hi: near + 1,
            }
        } else {
            Picked {
                end: far,
                lo: first,
                hi: ends.end,
            }
        }
    }
}
