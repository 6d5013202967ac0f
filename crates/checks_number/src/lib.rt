// The marks of single numbers, and one item more in the sum of check 6 (document 01, "Domain and refusal numbers").
// Parts for calls of other crates to compose, and no entry points: a few ask what a check before them has shown.
#![tactic(auto)]

ghost use Rattle.std.specs.Prelude.{◌≡◌, ◌+◌, ◌≤◌, nat_abs};
ghost use Rattle.checks.specs.declared.Kind.{Kind};
ghost use Rattle.checks.specs.Domain.{off_grid, in_range, float, code};
ghost use Rattle.checks.specs.Marks.{mark, least_of};
ghost use Rattle.checks.specs.Optional.{optional};
ghost use Rattle.checks_number.specs.Bounds.{between, bounds_of, fine};

use checks::{Kind, Mark};

// The least and the greatest number of a kind, and whether it is free of the grid: all three count for every kind.
#[derive(Clone, Copy)]
pub struct Bounds {
    pub low: f32,
    pub high: f32,
    pub free: bool,
}

fn between(low: f32, high: f32, free: bool) -> Bounds
    ensures { result ≡ between low high free }
{
    Bounds { low, high, free }
}

// By the name that the definition has: a `From` would say the same in more lines.
pub fn bounds_of(kind: Kind) -> Bounds
    ensures { result ≡ bounds_of kind }
{
    match kind {
        Kind::Length => between(-262144.0, 262144.0, false),
        Kind::Margin => between(-131072.0, 131072.0, false),
        Kind::Size => between(0.0, 262144.0, false),
        Kind::Factor => between(0.0, 1024.0, true),
        Kind::Worked => between(-16777216.0, 16777216.0, true),
    }
}

fn off_grid(b: Bounds, x: f32) -> bool
    ensures { (kind : Kind) → b ≡ bounds_of kind → result ≡ off_grid (float kind x) }
{
    !b.free & !grid::on_grid(x)
}

fn in_range(b: Bounds, x: f32) -> bool
    ensures { (kind : Kind) → b ≡ bounds_of kind → result ≡ in_range kind x }
{
    (x <= b.high) & (x >= b.low)
}

// Whether no check refuses x: what is in range is finite. No branch, so that a list is tested several numbers at a
// time.
pub fn is_fine(b: Bounds, x: f32) -> bool
    ensures { (kind : Kind) → b ≡ bounds_of kind → result ≡ fine (float kind x) }
{
    in_range(b, x) & (b.free | grid::is_multiple(x))
}

// The mark of a float. The container's place is 0, item i's is i + 1. No entry point.
pub fn mark_float(kind: Kind, x: f32, place: u32) -> Mark
    requires { place ≤ 1024 }
    ensures { result.0 ≡ mark (float kind x) place }
{
    let b = bounds_of(kind);
    if !grid::is_finite(x) {
        return Mark(place);
    }
    if off_grid(b, x) {
        return Mark(2048 + place);
    }
    if in_range(b, x) {
        Mark(6144)
    } else {
        Mark(4096 + place)
    }
}

// The mark of a float that may be absent. The flag is C's code, asked, as `optional` of specs/ takes it. No entry
// point.
pub fn mark_given(kind: Kind, x: f32, given: bool, place: u32) -> Mark
    requires { place ≤ 1024 }
    ensures { result.0 ≡ least_of (optional given (float kind x)) place }
{
    if given {
        mark_float(kind, x, place)
    } else {
        checks::no_mark()
    }
}

// The mark of a code, which is one of 0 to `most`. No entry point.
pub fn mark_code(most: u32, c: u32, place: u32) -> Mark
    requires { place ≤ 1024 }
    ensures { result.0 ≡ mark (code most c) place }
{
    if most < c {
        Mark(4096 + place)
    } else {
        Mark(6144)
    }
}

fn magnitude(v: grid::Sixtyfourths) -> u64
    requires { nat_abs v.0 ≤ 67108864 }
    ensures { result ≡ nat_abs v.0 }
{
    u64::from(v.0.unsigned_abs())
}

// One item more in the sum of check 6: the magnitude of its outer main size, and a gap. No entry point.
pub fn add_outer(total: u64, size: grid::Sixtyfourths, gap: grid::Sixtyfourths) -> u64
    requires { (total ≤ 274877906944) × (nat_abs size.0 ≤ 67108864) × (nat_abs gap.0 ≤ 16777216) }
    ensures { result ≡ total + (nat_abs size.0 + nat_abs gap.0) }
{
    total + (magnitude(size) + magnitude(gap))
}
