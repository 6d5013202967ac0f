// The items of a call in one table, read once from its lists, so that every step of flexing takes one list. No entry
// points.
#![tactic(auto)]

ghost use Rattle.std.specs.Prelude.{◌≡◌, ◌<◌, cond};
ghost use Rattle.grid.specs.Grid.{cleaned};
ghost use Rattle.flex.specs.Items.{lists_of, count, item_at};
ghost use Rattle.flex.specs.Accepted.{Even};
ghost use Rattle.flex_table.specs.Table.{Wide, Held, Kept};

use flex::{Item, ItemLists};

pub mod sum; // sum.rt: check 6, of a table's items

// A number that is there, or else another, by C's code as `read_where` of specs/ has it. -0.0 is read as 0.0.
fn read_or(x: f32, given: bool, other: f32) -> f32
    ensures { result ≡ cond given (cleaned x) other }
{
    if given { grid::clean(x) } else { other }
}

// Item i of the lists.
fn read_item(items: ItemLists, i: usize) -> Item
    requires { Even (lists_of items) × (i < count (lists_of items)) }
    ensures { result ≡ item_at (lists_of items.entry) i }
{
    Item {
        base: grid::clean(items.base[i]),
        minimum: grid::clean(items.minimum[i]),
        maximum: read_or(items.maximum[i], items.has_maximum[i] == 1, f32::INFINITY),
        edges: grid::clean(items.edges[i]),
        grow: grid::clean(items.grow[i]),
        shrink: grid::clean(items.shrink[i]),
        start: read_or(items.start[i], items.auto_start[i] == 0, 0.0),
        end: read_or(items.end[i], items.auto_end[i] == 0, 0.0),
    }
}

// The items of the lists of a call. No entry point.
pub fn read_items(items: ItemLists, table: &mut [Item])
    requires { Even (lists_of items) × Wide table.old (count (lists_of items)) }
    ensures held { Held (lists_of items.entry) table.new }
    ensures kept { Kept (count (lists_of items.entry)) table.old table.new }
{
    for i in 0..items.len() {
        table[i] = read_item(items, i);
    }
}
