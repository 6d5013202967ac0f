// The break limit (document 01, "Break limit"): the space that a line may take.
#![tactic(auto)]

ghost use Rattle.std.specs.Prelude.{◌≡◌, List};
ghost use Rattle.checks.specs.Domain.{Number};
ghost use Rattle.checks.specs.Marks.{least_of};
ghost use Rattle.break_limit.specs.Limit.{number_or, under_maximum, keeps_space, without_maximum, by_maximum};
ghost use Rattle.break_limit.specs.Limit.{break_limit, space_numbers, bound_numbers, limit_verdict, limit_call};

use checks::{Kind, Mark, Refusal};
use grid::floats::lower;
use keywords::{AvailableSpace, raise_to};

// What the break limit turns on: the known main size, the container's own main size, its direction, and the space and
// bounds on its main axis. No number stands beside the first three: document 01 asks them as questions.
#[derive(Clone, Copy)]
pub struct Query {
    pub known_is_definite: bool,
    pub main_is_definite: bool,
    pub is_row: bool,
    pub available: AvailableSpace,
    pub minimum: Option<f32>,
    pub maximum: Option<f32>,
}

fn number_or(available: AvailableSpace, maximum: f32) -> f32
    ensures { result ≡ number_or available maximum }
{
    match available {
        AvailableSpace::Definite(x) => x,
        AvailableSpace::MinContent | AvailableSpace::MaxContent => maximum,
    }
}

fn under_maximum(q: Query, maximum: f32) -> f32
    ensures { result ≡ under_maximum q maximum }
{
    let x = number_or(q.available, maximum);
    if q.main_is_definite {
        x
    } else {
        lower(x, maximum)
    }
}

// A column without a definite main size does not keep a definite space.
fn keeps_space(q: Query) -> bool
    ensures { result ≡ keeps_space q }
{
    q.is_row || q.main_is_definite
}

fn without_maximum(q: Query, available: AvailableSpace) -> AvailableSpace
    ensures { result ≡ without_maximum q available }
{
    match available {
        AvailableSpace::Definite(x) if keeps_space(q) => AvailableSpace::Definite(grid::clean(x)),
        AvailableSpace::Definite(_) => AvailableSpace::MaxContent,
        AvailableSpace::MinContent | AvailableSpace::MaxContent => available,
    }
}

fn by_maximum(q: Query, maximum: Option<f32>) -> AvailableSpace
    ensures { result ≡ by_maximum q maximum }
{
    let Some(high) = maximum else {
        return without_maximum(q, q.available);
    };
    let number = raise_to(q.minimum, under_maximum(q, high));
    AvailableSpace::Definite(grid::clean(number))
}

// The break limit of numbers that have passed the checks: document 01's rule, and no conversion.
pub fn limit_of(q: Query) -> AvailableSpace
    ensures { result ≡ break_limit q }
{
    if q.known_is_definite {
        by_maximum(q, q.maximum)
    } else {
        AvailableSpace::MaxContent
    }
}

// The first that is wrong with a space's number, if it has one.
#[tactic(auto, unfolding(checks::specs::Marks::least_of), using(checks::proofs::Checks::least_one))]
pub fn mark_space(limit: AvailableSpace) -> Mark
    ensures { result.0 ≡ least_of (space_numbers limit) 0 }
{
    match limit {
        AvailableSpace::Definite(x) => checks_number::mark_float(Kind::Length, x, 0),
        AvailableSpace::MinContent | AvailableSpace::MaxContent => checks::no_mark(),
    }
}

#[tactic(auto, unfolding(checks::specs::Marks::least_of), using(checks::proofs::Checks::least_one))]
fn mark_bound(bound: Option<f32>) -> Mark
    ensures { result.0 ≡ least_of (bound_numbers bound) 0 }
{
    match bound {
        None => checks::no_mark(),
        Some(x) => checks_number::mark_float(Kind::Size, x, 0),
    }
}

// Checks 3 to 5 of a break limit. `codes` is the mark of codes that were taken before its numbers.
pub fn check_limit(codes: Mark, q: Query) -> Result<(), Refusal>
    ensures { (cs : List Number) → codes.0 ≡ least_of cs 0 → result ≡ limit_verdict cs q }
{
    let bounds = checks::least(mark_bound(q.minimum), mark_bound(q.maximum));
    let numbers = checks::least(mark_space(q.available), bounds);
    checks::judge(checks::least(codes, numbers))
}

// The break limit of any bits: refusals 3, 4 and 5 are the container's.
pub fn break_limit(q: Query) -> Result<AvailableSpace, Refusal>
    ensures { result ≡ limit_call q }
{
    check_limit(checks::no_mark(), q)?;
    Ok(limit_of(q))
}
