// Alignment on either axis (document 01, "Main axis"; CSS-ALIGN 4 and 5): the fallback, and the step before the first
// item and before each later one. Parts of the placing calls, and no entry points: a few ask that a count is small,
// which check 1 shows.
#![tactic(auto)]

ghost use Rattle.std.specs.Prelude.{◌≡◌, ◌≤◌, ◌<◌};
ghost use Rattle.place_align.specs.Align.{fallback_of, fallback, made_safe, positioned, first_offset, later_offset};
ghost use Rattle.place_align.specs.Align.{self_offset};

use keywords::{ContentAlignment, Distribution, Position, SelfAlignment};

pub mod axis; // axis.rt: margins that may be auto, and offsets in the order of the walk

// What is left of a content alignment after its fallback.
#[derive(Clone, Copy)]
pub enum Resolved {
    At(Position),
    Spread(Distribution),
}

// CSS-ALIGN 5.3: what a distribution falls back to. A rule of the standard, and no conversion.
fn fallback_of(d: Distribution) -> ContentAlignment
    ensures { result ≡ fallback_of d }
{
    match d {
        Distribution::Stretch | Distribution::SpaceBetween => {
            ContentAlignment::Safe(Position::FlexStart)
        }
        Distribution::SpaceAround | Distribution::SpaceEvenly => {
            ContentAlignment::Safe(Position::Center)
        }
    }
}

// CSS-ALIGN 5.3: a distribution needs free space, and two items to put it between.
#[tactic(auto, unfolding(crate::specs::Align::fallback))]
fn fall_back(free: f32, n: usize, alignment: ContentAlignment) -> ContentAlignment
    ensures { result ≡ fallback free n alignment }
{
    match alignment {
        ContentAlignment::Spread(d) if free <= 0.0 || n <= 1 => fallback_of(d),
        _ => alignment,
    }
}

// CSS-ALIGN 4.4: a safe position gives way where there is no free space.
#[tactic(auto, unfolding(crate::specs::Align::made_safe))]
fn resolve_safety(free: f32, alignment: ContentAlignment) -> Resolved
    ensures { result ≡ made_safe free alignment }
{
    match alignment {
        ContentAlignment::Safe(_) if free <= 0.0 => Resolved::At(Position::Start),
        ContentAlignment::Unsafe(p) | ContentAlignment::Safe(p) => Resolved::At(p),
        ContentAlignment::Spread(d) => Resolved::Spread(d),
    }
}

pub fn apply_alignment_fallback(free: f32, n: usize, alignment: ContentAlignment) -> Resolved
    ensures { result ≡ made_safe free (fallback free n alignment) }
{
    resolve_safety(free, fall_back(free, n, alignment))
}

// A position's offset. A reversed axis exchanges flex-start and flex-end.
#[tactic(auto, unfolding(crate::specs::Align::positioned))]
fn position_offset(free: f32, reversed: bool, p: Position) -> f32
    ensures { result ≡ positioned free reversed p }
{
    match p {
        Position::Start => 0.0,
        Position::End => free,
        Position::FlexStart => if reversed { free } else { 0.0 },
        Position::FlexEnd => if reversed { 0.0 } else { free },
        Position::Center => free / 2.0,
    }
}

// The step before the first item. No entry point.
#[tactic(auto, unfolding(crate::specs::Align::first_offset))]
pub fn first_offset(free: f32, n: usize, reversed: bool, alignment: Resolved) -> f32
    requires { n ≤ 1024 }
    ensures { result ≡ first_offset free n reversed alignment }
{
    match alignment {
        Resolved::At(p) => position_offset(free, reversed, p),
        Resolved::Spread(Distribution::Stretch | Distribution::SpaceBetween) => 0.0,
        Resolved::Spread(Distribution::SpaceAround) => free / (n as f32) / 2.0,
        Resolved::Spread(Distribution::SpaceEvenly) => free / ((n + 1) as f32),
    }
}

// The step before each later item. No entry point.
#[tactic(auto, unfolding(crate::specs::Align::later_offset))]
pub fn later_offset(free: f32, n: usize, gap: f32, alignment: Resolved) -> f32
    requires { (0 < n) × (n ≤ 1024) }
    ensures { result ≡ later_offset free n gap alignment }
{
    match alignment {
        Resolved::At(_) | Resolved::Spread(Distribution::Stretch) => gap,
        Resolved::Spread(Distribution::SpaceBetween) => gap + free / ((n - 1) as f32),
        Resolved::Spread(Distribution::SpaceAround) => gap + free / (n as f32),
        Resolved::Spread(Distribution::SpaceEvenly) => gap + free / ((n + 1) as f32),
    }
}

// CSS-FLEX 9.6: an item's offset in its line by `align-self`, where neither cross margin is auto.
#[tactic(auto, unfolding(crate::specs::Align::self_offset, crate::specs::Align::positioned))]
pub fn align_item(free: f32, reversed: bool, alignment: SelfAlignment) -> f32
    ensures { result ≡ self_offset free reversed alignment }
{
    match alignment {
        SelfAlignment::Safe(_) if free < 0.0 => 0.0,
        SelfAlignment::Unsafe(p) | SelfAlignment::Safe(p) => position_offset(free, reversed, p),
        SelfAlignment::Stretch => position_offset(free, reversed, Position::FlexStart),
    }
}
