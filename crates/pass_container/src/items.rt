// The items' lists as the pass is handed them, and what each stage takes of them. No entry points: `check_pass` of
// crate `pass_checks` sees that they are of the lengths that their number says.
ghost use Rattle.std.specs.Prelude.{◌≡◌, ◌*◌, ◌≤◌, length};
ghost use Rattle.flex.specs.Items as flexing;
ghost use Rattle.place_main.specs.Lists as along;
ghost use Rattle.place_size.specs.Lists as across;
ghost use Rattle.pass_container.specs.Columns.{column, main_lists, main_items, cross_items, align_self, auto_size};

use crate::columns::column;
use flex::ItemLists;
use place_cross::AcrossLists;
use place_main::LineLists;
use place_size::CrossLists;

// So many items: fourteen lists of numbers and eight of codes, each of `count` cells, one after another.
#[derive(Clone, Copy)]
pub struct Items<'a> {
    pub count: usize,
    pub numbers: &'a [f32],
    pub codes: &'a [u32],
    pub ghost few: { count ≤ 1024 },
    pub ghost numbers_long: { length numbers.now ≡ 14 * count },
    pub ghost codes_long: { length codes.now ≡ 8 * count },
}

impl<'a> Items<'a> {
    // List k of the numbers.
    pub fn number(self, k: usize) -> &'a [f32]
        requires { k ≤ 13 }
        ensures { result.now ≡ column self.entry.count k self.entry.numbers.now }
    {
        column(self.numbers, self.count, k)
    }

    // List k of the codes.
    pub fn code(self, k: usize) -> &'a [u32]
        requires { k ≤ 7 }
        ensures { result.now ≡ column self.entry.count k self.entry.codes.now }
    {
        column(self.codes, self.count, k)
    }

    // What flexing takes.
    pub fn main(self) -> ItemLists<'a>
        ensures { flexing.lists_of result ≡ main_lists self.entry.count self.entry.numbers.now self.entry.codes.now }
    {
        ItemLists {
            base: self.number(0),
            minimum: self.number(1),
            maximum: self.number(2),
            has_maximum: self.code(0),
            edges: self.number(3),
            grow: self.number(4),
            shrink: self.number(5),
            start: self.number(6),
            end: self.number(7),
            auto_start: self.code(1),
            auto_end: self.code(2),
        }
    }

    // What the main axis takes, once the targets are worked out.
    pub fn spaced(self, targets: &'a [f32]) -> LineLists<'a>
        ensures { along.lists_of result ≡ main_items self.entry.count self.entry.numbers.now self.entry.codes.now
            targets.now }
    {
        LineLists {
            targets,
            start: self.number(6),
            end: self.number(7),
            auto_start: self.code(1),
            auto_end: self.code(2),
        }
    }

    // What the size of a line takes.
    pub fn cross(self) -> CrossLists<'a>
        ensures { across.lists_of result ≡ cross_items self.entry.count self.entry.numbers.now self.entry.codes.now }
    {
        CrossLists {
            measured: self.number(8),
            minimum: self.number(9),
            maximum: self.number(10),
            capped: self.code(3),
            edges: self.number(11),
            start: self.number(12),
            end: self.number(13),
            auto_start: self.code(4),
            auto_end: self.code(5),
        }
    }

    // What items across their lines take.
    pub fn across(self) -> AcrossLists<'a>
        ensures cross { across.lists_of result.cross ≡ cross_items self.entry.count self.entry.numbers.now
            self.entry.codes.now }
        ensures alignment { result.alignment.now ≡ align_self self.entry.count self.entry.codes.now }
        ensures auto_size { result.auto_size.now ≡ auto_size self.entry.count self.entry.codes.now }
    {
        AcrossLists {
            cross: self.cross(),
            alignment: self.code(6),
            auto_size: self.code(7),
        }
    }
}
