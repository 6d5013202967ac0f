// Sums of the items, and the sizes of lines from them. Everything here counts whole sixty-fourths, held exactly in an
// `f64`. No entry points.
#![tactic(auto)]

ghost use Rattle.std.specs.Prelude.{◌≤◌, ◌<◌, length, ◌≡◌};
ghost use Rattle.balance_sums.specs.Sums.{before_f, size_f, base_f};

// Whole sixty-fourths of a pixel. A number of pixels cannot stand where one of these is meant.
#[derive(Clone, Copy)]
pub struct Units(pub f64);

// What the size of a line is worked out from: the sum of the items up to each, each with a gap after it, and the gap.
#[derive(Clone, Copy)]
pub struct Sums<'a> {
    pub up_to: &'a [f64],
    pub gap: Units,
}

impl<'a> Sums<'a> {
    // The sum of the items before `start`, each with its gap.
    fn before(self, start: usize) -> f64
        requires { start ≤ length self.up_to.now }
        ensures { result ≡ before_f self.entry.up_to.now start }
    {
        if start == 0 {
            0.0
        } else {
            self.up_to[start - 1]
        }
    }

    // The size of the line that holds the items from `start` to `end`. No entry point.
    pub fn line_size(self, start: usize, end: usize) -> Units
        requires { (start ≤ end) × (end < length self.up_to.now) }
        ensures { result.0 ≡ size_f self.entry.up_to.now self.entry.gap.0 start end }
    {
        let b = self.before(start);
        Units(self.up_to[end] - b - self.gap.0)
    }

    // What the sums up to a line's end hold besides the line that begins at `start`: the items before it, and one gap.
    // No entry point.
    pub fn base(self, start: usize) -> Units
        requires { start ≤ length self.up_to.now }
        ensures { result.0 ≡ base_f self.entry.up_to.now self.entry.gap.0 start }
    {
        let b = self.before(start);
        Units(b + self.gap.0)
    }
}
