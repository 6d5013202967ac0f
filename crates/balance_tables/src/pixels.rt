// From pixels to whole sixty-fourths, held exactly in an `f64`, and their sums. No entry points.
ghost use Rattle.std.specs.Prelude.{◌≡◌, not, ℕ, ◌≤◌, ◌<◌, T, length, get_or};
ghost use Rattle.std.specs.Float.Ieee.{is_nan};
ghost use Rattle.std.specs.Float.{nan};
ghost use Rattle.balance_tables.specs.Pixels.{scaled_f, SizeOut, AddOut};

use balance_sums::Units;

// A length in pixels as sixty-fourths: exact, since an `f64` has room for every one. No entry point.
pub fn to_units(v: f32) -> Units
    requires { T (not (is_nan v)) }
    ensures { result.0 ≡ scaled_f v }
{
    Units((v as f64) * 64.0)
}

// A size in pixels as sixty-fourths, a negative one as 0. No entry point.
pub fn to_size(v: f32) -> Units
    requires { T (not (is_nan v)) }
    ensures { SizeOut v result.0 }
{
    if 0.0 < v { to_units(v) } else { Units(0.0) }
}

// The sum of the items up to each, each with a gap after it. No entry point.
pub fn add_up(sizes: &[f32], gap: Units, sums: &mut [f64])
    requires { (length sums.old ≡ length sizes.now) × (length sizes.now ≤ 1024)
        × ((i : ℕ) → i < length sizes.now → T (not (is_nan (get_or sizes.now i nan)))) }
    ensures { AddOut sizes.now gap.0 sums.new }
{
    let mut sum = 0.0;
    for (i, size) in sizes.iter().enumerate() {
        sum += to_size(*size).0 + gap.0;
        sums[i] = sum;
    }
}
