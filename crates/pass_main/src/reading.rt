// The items' numbers on the main axis, out of the lists that the pass is handed.
ghost use Rattle.flex_table.specs.Table.{Wide, Held, Kept};
ghost use Rattle.pass_container.specs.Columns.{main_lists};

use flex::Item;
use pass_container::Items;

// Into the table, as flexing reads them. No entry point: the table is wide enough.
pub fn read_main(items: Items, table: &mut [Item])
    requires { Wide table.old items.count }
    ensures held { Held (main_lists items.entry.count items.entry.numbers.now items.entry.codes.now) table.new }
    ensures kept { Kept items.entry.count table.old table.new }
{
    flex_table::read_items(items.main(), table);
}
