// Lent lists of cells: clearing a range. Breaking, flexing and the pass write with it. No entry point: the cells are
// there.
#![tactic(auto)]

ghost use Rattle.std.specs.Prelude.{◌≡◌, ◌≤◌, length};
ghost use Rattle.lists.specs.Cells.{filled};

// Sets the cells from `from` up to `to` to `zero`. Not by `fill`, which would ask of every caller that a copy of a `T`
// cannot fail. No entry point.
pub fn clear<T: Copy>(cells: &mut [T], from: usize, to: usize, zero: T)
    requires { (from ≤ to) × (to ≤ length cells.old) }
    ensures { cells.new ≡ filled zero from to cells.old }
{
    for i in from..to {
        cells[i] = zero;
    }
}
