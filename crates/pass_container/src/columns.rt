// Lists of n cells one after another in one list: list k starts at cell k * n. No entry points.
ghost use Rattle.std.specs.Prelude.{◌≡◌, ◌+◌, length};
ghost use Rattle.pass_container.specs.Columns.{column};
ghost use Rattle.pass_container.specs.Stages.{Inside, ColumnStored, FourStored};

// List k. No entry point: it is there.
pub fn column<T>(xs: &[T], n: usize, k: usize) -> &[T]
    requires { Inside n k xs.now }
    ensures { result.now ≡ column n k xs.now }
{
    let from = k * n;
    &xs[from..from + n]
}

// Writes list k of a lent list. No entry point: it is there.
pub fn store_column(xs: &[f32], n: usize, k: usize, cells: &mut [f32])
    requires { Inside n k cells.old × (length xs.now ≡ n) }
    ensures { ColumnStored n k xs.now cells.old cells.new }
{
    let from = k * n;
    cells[from..from + n].copy_from_slice(xs);
}

// Writes four lists, k and those after it: an array of the four would be built at each of two calls and be no plainer.
// No entry point: they are there.
pub fn store_four<'a>(
    a: &'a [f32],
    b: &'a [f32],
    c: &'a [f32],
    d: &'a [f32],
    n: usize,
    k: usize,
    cells: &mut [f32],
)
    requires { Inside n (k + 3) cells.old × (length a.now ≡ n) × (length b.now ≡ n) × (length c.now ≡ n)
        × (length d.now ≡ n) }
    ensures { FourStored n k a.now b.now c.now d.now
        cells.old cells.new }
{
    store_column(a, n, k, cells);
    store_column(b, n, k + 1, cells);
    store_column(c, n, k + 2, cells);
    store_column(d, n, k + 3, cells);
}
