// The keywords that hosts hand in, as codes and as enums (document 01): spaces, bounds, wrapping and alignment.
// Breaking and placing share them. A code comes over the C interface, and `checked` refuses one that names nothing with
// 5, among the other numbers of the call: so calls check codes as numbers, and then read them by these functions, which
// answer for every code, where a `TryFrom` would refuse by itself, at another moment. No entry points.
#![tactic(auto)]

ghost use Rattle.std.specs.Prelude.{◌≡◌};
ghost use Rattle.keywords.specs.Space.{space_of, bound_of, raised_to, lowered_to, read_bound};
ghost use Rattle.keywords.specs.Wrapping.{wrap_of, mode_of, is_single_line, is_reversed};
ghost use Rattle.keywords.specs.Alignment.{position_of, distribution_of, content_of, self_of};

use grid::floats::{lower, raise};

// The space that a line may take.
#[derive(Clone, Copy)]
pub enum AvailableSpace {
    Definite(f32),
    MinContent,
    MaxContent,
}

// The space that a kind names, as hosts and the container say it. A kind above 2 is refused before.
pub fn space_of(kind: u32, limit: f32) -> AvailableSpace
    ensures { result ≡ space_of kind limit }
{
    match kind {
        0 => AvailableSpace::Definite(limit),
        1 => AvailableSpace::MinContent,
        _ => AvailableSpace::MaxContent,
    }
}

// The bound that a code and a number say, as hosts say it. A code above 1 is refused before.
pub fn bound_of(given: u32, x: f32) -> Option<f32>
    ensures { result ≡ bound_of given x }
{
    if given == 1 { Some(x) } else { None }
}

pub fn raise_to(minimum: Option<f32>, x: f32) -> f32
    ensures { result ≡ raised_to minimum x }
{
    minimum.map_or(x, |low| raise(x, low))
}

pub fn lower_to(maximum: Option<f32>, x: f32) -> f32
    ensures { result ≡ lowered_to maximum x }
{
    maximum.map_or(x, |high| lower(x, high))
}

pub fn read_bound(bound: Option<f32>) -> Option<f32>
    ensures { result ≡ read_bound bound }
{
    bound.map(grid::clean)
}

#[derive(Clone, Copy, Debug, PartialEq, Eq)]
pub enum Wrap {
    NoWrap,
    Wrap,
    WrapReverse,
    Balance,
    BalanceReverse,
}

// A code above 4 is refused by the checks. It reads as nowrap, so that check 2 asks no work cells for it.
pub fn wrap_of(code: u32) -> Wrap
    ensures { result ≡ wrap_of code }
{
    match code {
        0 => Wrap::NoWrap,
        1 => Wrap::Wrap,
        2 => Wrap::WrapReverse,
        3 => Wrap::Balance,
        4 => Wrap::BalanceReverse,
        _ => Wrap::NoWrap,
    }
}

// Whether a container's items make one line (nowrap), greedy lines (wrap) or balanced lines (balance).
#[derive(Clone, Copy, Debug, PartialEq, Eq)]
pub enum Mode {
    Single,
    Greedy,
    Balanced,
}

// By the name that the definition has: a `From` would say the same in more lines.
pub fn mode_of(wrap: Wrap) -> Mode
    ensures { result ≡ mode_of wrap }
{
    match wrap {
        Wrap::NoWrap => Mode::Single,
        Wrap::Wrap | Wrap::WrapReverse => Mode::Greedy,
        Wrap::Balance | Wrap::BalanceReverse => Mode::Balanced,
    }
}

pub fn is_single_line(wrap: Wrap) -> bool
    ensures { result ≡ is_single_line wrap }
{
    matches!(wrap, Wrap::NoWrap)
}

pub fn is_reversed(wrap: Wrap) -> bool
    ensures { result ≡ is_reversed wrap }
{
    matches!(wrap, Wrap::WrapReverse | Wrap::BalanceReverse)
}

// CSS-ALIGN, `<content-position>` and `<self-position>`.
#[derive(Clone, Copy, Debug, PartialEq, Eq)]
pub enum Position {
    Start,
    End,
    FlexStart,
    FlexEnd,
    Center,
}

// CSS-ALIGN, `<content-distribution>`.
#[derive(Clone, Copy, Debug, PartialEq, Eq)]
pub enum Distribution {
    Stretch,
    SpaceBetween,
    SpaceAround,
    SpaceEvenly,
}

// `justify-content` and `align-content`: `safe` stands before a position alone.
#[derive(Clone, Copy, Debug, PartialEq, Eq)]
pub enum ContentAlignment {
    Unsafe(Position),
    Safe(Position),
    Spread(Distribution),
}

// `align-self`.
#[derive(Clone, Copy, Debug, PartialEq, Eq)]
pub enum SelfAlignment {
    Unsafe(Position),
    Safe(Position),
    Stretch,
}

// Codes 0 to 4; any other reads as the last.
fn position_of(code: u32) -> Position
    ensures { result ≡ position_of code }
{
    match code {
        0 => Position::Start,
        1 => Position::End,
        2 => Position::FlexStart,
        3 => Position::FlexEnd,
        _ => Position::Center,
    }
}

fn distribution_of(code: u32) -> Distribution
    ensures { result ≡ distribution_of code }
{
    match code {
        0 => Distribution::Stretch,
        1 => Distribution::SpaceBetween,
        2 => Distribution::SpaceAround,
        _ => Distribution::SpaceEvenly,
    }
}

// Codes 0 to 13. A call refuses any other before it asks.
pub fn content_of(code: u32) -> ContentAlignment
    ensures { result ≡ content_of code }
{
    if code < 5 {
        return ContentAlignment::Unsafe(position_of(code));
    }
    if code < 10 {
        return ContentAlignment::Safe(position_of(code - 5));
    }
    ContentAlignment::Spread(distribution_of(code - 10))
}

// Codes 0 to 10. A call refuses any other before it asks.
pub fn self_of(code: u32) -> SelfAlignment
    ensures { result ≡ self_of code }
{
    if code < 5 {
        return SelfAlignment::Unsafe(position_of(code));
    }
    if code < 10 {
        return SelfAlignment::Safe(position_of(code - 5));
    }
    SelfAlignment::Stretch
}
