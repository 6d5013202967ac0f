// The cross size of a line from its items (CSS-FLEX 9.4, step 8).
ghost use Rattle.std.specs.Prelude.{◌≡◌, ◌<◌};
ghost use Rattle.place_size.specs.CrossSize.{cross_clamp, or_nought, margins, outer_size, read_item, count};
ghost use Rattle.place_size.specs.CrossSize.{cross_item_at, largest_outer, line_cross_size, cross_line_size};
ghost use Rattle.place_size.specs.Lists.{lists_of};
ghost use Rattle.place_size.specs.Parts.{CrossOneLength};

use crate::container::Cross;
use crate::{CrossLists, container};
use grid::floats::{lower, raise};

// What an item's cross size and margins turn on. `capped` says that there is a maximum; `edges` is padding plus border.
// The flags stay beside their numbers, since `start_long`, `short_start`, `short_fills` and `worked` speak of both.
#[derive(Clone, Copy)]
pub struct CrossItem {
    pub measured: f32,
    pub minimum: f32,
    pub maximum: f32,
    pub capped: bool,
    pub edges: f32,
    pub start: f32,
    pub end: f32,
    pub auto_start: bool,
    pub auto_end: bool,
}

// An item's size held to its bounds: padding plus border wins, then the minimum.
#[tactic(auto, unfolding(crate::specs::CrossSize::cross_clamp))]
pub fn clamp_item(it: CrossItem, x: f32) -> f32
    ensures { result ≡ cross_clamp it x }
{
    let lowered = if it.capped { lower(x, it.maximum) } else { x };
    raise(raise(lowered, it.minimum), it.edges)
}

// An auto margin is 0, by the flag that `CrossItem` keeps beside its number.
fn or_nought(auto: bool, x: f32) -> f32
    ensures { result ≡ or_nought auto x }
{
    if auto { 0.0 } else { x }
}

// The sum of an item's margins, auto ones as 0.
#[tactic(auto, unfolding(crate::specs::CrossSize::margins))]
pub fn margin_sum(it: CrossItem) -> f32
    ensures { result ≡ margins it }
{
    or_nought(it.auto_start, it.start) + or_nought(it.auto_end, it.end)
}

// What an item asks of its line. Baselines change this step alone.
#[tactic(auto, unfolding(crate::specs::CrossSize::outer_size))]
fn outer_cross_size(it: CrossItem) -> f32
    ensures { result ≡ outer_size it }
{
    clamp_item(it, it.measured) + margin_sum(it)
}

// An item's numbers as they are used: -0.0 reads as 0.
fn read_item(it: CrossItem) -> CrossItem
    ensures { result ≡ read_item it }
{
    CrossItem {
        measured: grid::clean(it.measured),
        minimum: grid::clean(it.minimum),
        maximum: grid::clean(it.maximum),
        capped: it.capped,
        edges: grid::clean(it.edges),
        start: grid::clean(it.start),
        end: grid::clean(it.end),
        auto_start: it.auto_start,
        auto_end: it.auto_end,
    }
}

// Item i of the lists: no entry point, since they are of one length, and longer than i.
pub fn item_at(items: CrossLists, i: usize) -> CrossItem
    requires cross_one_length { CrossOneLength (lists_of items) }
    requires i_in_bounds { i < count (lists_of items) }
    ensures { result ≡ cross_item_at (lists_of items.entry) i }
{
    read_item(CrossItem {
        measured: items.measured[i],
        minimum: items.minimum[i],
        maximum: items.maximum[i],
        capped: items.capped[i] != 0,
        edges: items.edges[i],
        start: items.start[i],
        end: items.end[i],
        auto_start: items.auto_start[i] != 0,
        auto_end: items.auto_end[i] != 0,
    })
}

// The largest outer cross size of a line's items, and zero.
#[tactic(auto, unfolding(crate::specs::CrossSize::largest))]
fn largest_outer(items: CrossLists) -> f32
    requires { CrossOneLength (lists_of items) }
    ensures { result ≡ largest_outer (lists_of items.entry) }
{
    let mut most = 0.0;
    for i in 0..items.measured.len() {
        most = raise(most, outer_cross_size(item_at(items, i)));
    }
    most
}

// The size of a line whose items ask for x.
#[tactic(auto, unfolding(crate::specs::CrossSize::line_cross_size))]
fn line_size(c: Cross, x: f32) -> f32
    ensures { result ≡ line_cross_size c x }
{
    let size = if keywords::is_single_line(c.wrap) {
        container::inner_or(c, x)
    } else {
        x
    };
    grid::clean(size)
}

// CSS-FLEX 9.4 of one accepted line: no entry point, since the lists are of one length.
pub fn calculate_cross_size(c: Cross, items: CrossLists) -> f32
    requires { CrossOneLength (lists_of items) }
    ensures { result ≡ cross_line_size c (lists_of items.entry) }
{
    line_size(container::read_cross(c), largest_outer(items))
}
