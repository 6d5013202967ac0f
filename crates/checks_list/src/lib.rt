// Checks 3 to 5, and the sum of check 6, over whole lists of items' numbers (document 01, "Domain and refusal
// numbers"). Parts for calls of other crates to compose, and no entry points: check 1 has been made, and check 2 of
// lists that stand beside each other.
#![tactic(auto)]

ghost use Rattle.std.specs.Prelude.{◌≡◌, ◌+◌, ◌≤◌, eqb, length, get_or, nat_abs};
ghost use Rattle.std.specs.Float.{nan};
ghost use Rattle.grid.specs.Grid.{sixty_fourths};
ghost use Rattle.grid.specs.Values.{Length};
ghost use Rattle.checks.specs.Domain.{float, code};
ghost use Rattle.lists.specs.Cells.{sum_up_to};
ghost use Rattle.checks.specs.Marks.{mark, least_of, least_up_to, Lengths};
ghost use Rattle.checks.specs.Optional.{optional};

use crate::fine::{are_fine, are_fine_where, are_named};
use checks::{Kind, Mark, least, no_mark};

mod fine; // fine.rt: whether a list has no mark at all
pub mod whole; // whole.rt: the marks of whole lists, as numbers that the items have

// The least mark of a list of items' numbers. Most lists have none, which is soon told of all numbers together; only
// then are they gone through one by one. No entry point.
pub fn mark_floats(kind: Kind, xs: &[f32]) -> Mark
    requires { length xs.now ≤ 1024 }
    ensures { result.0 ≡ least_up_to (λ i. mark (float kind (get_or xs.now i nan)) (i + 1))
        (length xs.now) }
{
    if are_fine(kind, xs) {
        return no_mark();
    }
    let mut m = no_mark();
    for (i, &x) in xs.iter().enumerate() {
        m = least(m, checks_number::mark_float(kind, x, (i + 1) as u32));
    }
    m
}

// The least mark of the items' numbers whose code, as C hands it over, is `taken`. No entry point.
pub fn mark_floats_where<'a>(kind: Kind, xs: &'a [f32], codes: &'a [u32], taken: u32) -> Mark
    requires { (length xs.now ≤ 1024) × (length codes.now ≡ length xs.now) }
    ensures { result.0 ≡ least_up_to (λ i. least_of (optional (eqb (get_or codes.now i 0) taken)
        (float kind (get_or xs.now i nan))) (i + 1)) (length xs.now) }
{
    if are_fine_where(kind, xs, codes, taken) {
        return no_mark();
    }
    let mut m = no_mark();
    for i in 0..xs.len() {
        let c = codes[i];
        m = least(
            m,
            checks_number::mark_given(kind, xs[i], c == taken, (i + 1) as u32),
        );
    }
    m
}

// The least mark of a list of codes, each one of 0 to `most`. The same sweep as over floats: a trait of kinds and codes
// would say what a cell is, what a missing one is and how each is marked, and be longer than this. No entry point.
pub fn mark_codes(most: u32, codes: &[u32]) -> Mark
    requires { length codes.now ≤ 1024 }
    ensures { result.0 ≡ least_up_to (λ i. mark (code most (get_or codes.now i 0)) (i + 1))
        (length codes.now) }
{
    if are_named(most, codes) {
        return no_mark();
    }
    let mut m = no_mark();
    for (i, &code) in codes.iter().enumerate() {
        m = least(m, checks_number::mark_code(most, code, (i + 1) as u32));
    }
    m
}

// The sum of check 6 over a list of lengths. No entry point.
pub fn sum_floats(xs: &[f32], gap: f32) -> u64
    requires { (length xs.now ≤ 1024) × Length gap × Lengths xs.now }
    ensures { result ≡ sum_up_to (λ i. nat_abs (sixty_fourths (get_or xs.now i nan)) + nat_abs (sixty_fourths gap))
        (length xs.now) }
{
    let g = grid::to_sixtyfourths(gap);
    let mut total: u64 = 0;
    for &x in xs {
        total = checks_number::add_outer(total, grid::to_sixtyfourths(x), g);
    }
    total
}
