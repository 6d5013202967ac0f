// The marks of a whole list, as numbers that its items have: a call's lists are put together item by item.
// No entry points: check 1 has been made, and check 2 of lists that stand beside each other.
ghost use Rattle.std.specs.Prelude.{◌≡◌, ◌+◌, ◌≤◌, length};
ghost use Rattle.checks.specs.Marks.{least_of, least_up_to};
ghost use Rattle.checks.specs.Lists.{float_at, code_at, beside_at};

use checks::{Kind, Mark};

// Every item's float of one kind. No entry point.
pub fn mark_list(kind: Kind, xs: &[f32]) -> Mark
    requires { length xs.now ≤ 1024 }
    ensures { result.0 ≡ least_up_to (λ i. least_of (float_at kind xs.now i) (i + 1))
        (length xs.now) }
{
    crate::mark_floats(kind, xs)
}

// Every item's code, one of 0 to `most`. No entry point.
pub fn mark_code_list(most: u32, codes: &[u32]) -> Mark
    requires { length codes.now ≤ 1024 }
    ensures { result.0 ≡ least_up_to (λ i. least_of (code_at most codes.now i) (i + 1))
        (length codes.now) }
{
    crate::mark_codes(most, codes)
}

// Every item's code, 0 or 1 as C hands it over, and the float beside it where the code is `taken`. No entry point.
pub fn mark_beside<'a>(kind: Kind, xs: &'a [f32], codes: &'a [u32], taken: u32) -> Mark
    requires { (length xs.now ≤ 1024) × (length codes.now ≡ length xs.now) }
    ensures { result.0 ≡ least_up_to (λ i. least_of (beside_at kind taken xs.now codes.now i)
        (i + 1)) (length xs.now) }
{
    checks::least(
        crate::mark_codes(1, codes),
        crate::mark_floats_where(kind, xs, codes, taken),
    )
}
