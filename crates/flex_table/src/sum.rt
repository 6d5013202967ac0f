// Check 6: the sum over items of the magnitude of the hypothetical outer size, and a gap, in sixty-fourths.
ghost use Rattle.std.specs.Prelude.{◌≡◌, ◌≤◌, length};
ghost use Rattle.grid.specs.Values.{Length};
ghost use Rattle.flex.specs.Flex.{outer_units, outer_sum};
ghost use Rattle.flex.specs.Accepted.{Measured, Every};

use flex::Item;

// The hypothetical outer size. Beyond 262,144 px an f32 does not hold it, so it is added in whole sixty-fourths.
fn outer_units(it: Item) -> grid::Sixtyfourths
    requires { Measured it }
    ensures { result.0 ≡ outer_units it }
{
    let size = grid::to_sixtyfourths(it.hypothetical_size());
    let start = grid::to_sixtyfourths(it.start);
    let end = grid::to_sixtyfourths(it.end);
    grid::Sixtyfourths(size.0 + (start.0 + end.0))
}

// The sum of the items of a table. No entry point: it asks for measured items.
pub fn outer_sum(items: &[Item], gap: f32) -> u64
    requires { (length items.now ≤ 1024) × Length gap × Every Measured items.now }
    ensures { result ≡ outer_sum gap items.now }
{
    let g = grid::to_sixtyfourths(gap);
    let mut total = 0;
    for &it in items {
        total = checks_number::add_outer(total, outer_units(it), g);
    }
    total
}
