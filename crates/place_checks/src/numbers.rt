// The container's cross axis in numbers, on any bits.
ghost use Rattle.std.specs.Prelude.{◌≡◌, List};
ghost use Rattle.checks.specs.Domain.{Number};
ghost use Rattle.checks.specs.Marks.{least_of};
ghost use Rattle.place_checks.specs.Numbers.{cross_of, coded_bound, bounds_numbers, cross_numbers, sizing_numbers};

use checks::{Kind, Mark, least};
use checks_number::{mark_code, mark_float};
use keywords::bound_of;
use place_size::container::Cross;

// As a host hands it over. A size or bound whose code is 0 is absent, and its number is not read.
#[repr(C)]
#[derive(Clone, Copy)]
pub struct CrossNumbers {
    pub inner: f32,
    pub has_inner: u32,
    pub minimum: f32,
    pub has_minimum: u32,
    pub maximum: f32,
    pub has_maximum: u32,
    pub gap: f32,
    pub wrap: u32,
}

// Not a `From`: it reads what checks 3 to 5 have passed, and no codes besides.
#[tactic(auto, unfolding(crate::specs::Numbers::cross_of))]
pub fn cross_of(c: CrossNumbers) -> Cross
    ensures { result ≡ cross_of c }
{
    Cross {
        inner: bound_of(c.has_inner, c.inner),
        minimum: bound_of(c.has_minimum, c.minimum),
        maximum: bound_of(c.has_maximum, c.maximum),
        gap: c.gap,
        wrap: keywords::wrap_of(c.wrap),
    }
}

// The code and the number of a bound, as C hands them over.
#[tactic(auto, unfolding(checks::specs::Marks::least_of))]
fn mark_bound(given: u32, x: f32) -> Mark
    ensures { result.0 ≡ least_of (coded_bound given x) 0 }
{
    least(
        mark_code(1, given, 0),
        checks_number::mark_given(Kind::Size, x, given == 1, 0),
    )
}

// The three bounds, before whatever else is taken.
#[tactic(auto, using(crate::proofs::BoundMarks::bounds_marks))]
fn mark_bounds(c: CrossNumbers, plain: Mark) -> Mark
    ensures { (rest : List Number) → plain.0 ≡ least_of rest 0 → result.0 ≡ least_of (bounds_numbers c rest) 0 }
{
    let maximum = mark_bound(c.has_maximum, c.maximum);
    let minimum = mark_bound(c.has_minimum, c.minimum);
    least(
        mark_bound(c.has_inner, c.inner),
        least(minimum, least(maximum, plain)),
    )
}

// What lines along the cross axis turn on.
#[tactic(auto, using(checks::proofs::Checks::least_one), unfolding(checks::specs::Marks::least_of))]
pub fn mark_cross(c: CrossNumbers) -> Mark
    ensures { result.0 ≡ least_of (cross_numbers c) 0 }
{
    mark_bounds(
        c,
        least(mark_float(Kind::Size, c.gap, 0), mark_code(4, c.wrap, 0)),
    )
}

// What the size of one line turns on, which knows no gap.
#[tactic(auto, using(checks::proofs::Checks::least_one))]
pub fn mark_sizing(c: CrossNumbers) -> Mark
    ensures { result.0 ≡ least_of (sizing_numbers c) 0 }
{
    mark_bounds(c, mark_code(4, c.wrap, 0))
}
