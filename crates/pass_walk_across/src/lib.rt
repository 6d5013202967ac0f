// The items across their lines, line by line: each line is lent its own parts of the lists. No entry point: the pass
// checks before it walks.
#![tactic(auto)]

ghost use Rattle.place_size.specs.CrossSize.{count};
ghost use Rattle.place_size.specs.Lists.{lists_of};
ghost use Rattle.place_cross.specs.CrossAxis.{Across};
ghost use Rattle.place_cross.specs.Parts.{SameLengths, AcrossRoom};
ghost use Rattle.pass_walk_across.specs.Cross.{AcrossLines};
ghost use Rattle.pass_walk_across.specs.Parts.{AcrossReady};

use place_cross::cross_axis::place_items;
use place_cross::{AcrossCells, AcrossLists};

// CSS-FLEX 9.6 of one line, into its parts of the lists.
fn place_line(
    line: f32,
    reversed: bool,
    items: AcrossLists,
    sizes: &mut [f32],
    used_start: &mut [f32],
    used_end: &mut [f32],
    offsets: &mut [f32],
)
    requires lengths { SameLengths (lists_of items.cross) items.alignment.now items.auto_size.now }
    requires room { AcrossRoom (count (lists_of items.cross)) sizes.old used_start.old used_end.old offsets.old }
    ensures { Across line reversed (lists_of items.entry.cross) items.entry.alignment.now items.entry.auto_size.now
        sizes.old used_start.old used_end.old offsets.old sizes.new used_start.new used_end.new offsets.new }
{
    place_items(
        line,
        reversed,
        items,
        &mut AcrossCells {
            sizes,
            used_start,
            used_end,
            offsets,
        },
    );
}

// CSS-FLEX 9.6 of every line, each in its own size: no entry point, since the lines have the items of the lists, and
// there is room. What is lent comes list by list: of four fields behind one `&mut`, parts cannot be lent on together in
// a form that the borrow checker's proofs cover.
pub fn across_by_line(
    reversed: bool,
    counts: &[u32],
    line_sizes: &[f32],
    items: AcrossLists,
    sizes: &mut [f32],
    used_start: &mut [f32],
    used_end: &mut [f32],
    offsets: &mut [f32],
)
    requires { AcrossReady counts.now line_sizes.now (lists_of items.cross) items.alignment.now items.auto_size.now
        sizes.old used_start.old used_end.old offsets.old }
    ensures { AcrossLines reversed counts.now line_sizes.now (lists_of items.entry.cross) items.entry.alignment.now
        items.entry.auto_size.now sizes.old used_start.old used_end.old offsets.old sizes.new used_start.new
        used_end.new offsets.new }
{
    let mut from = 0;
    for (j, &count) in counts.iter().enumerate() {
        let to = from + count as usize;
        place_line(
            line_sizes[j],
            reversed,
            items.part(from, to),
            &mut sizes[from..to],
            &mut used_start[from..to],
            &mut used_end[from..to],
            &mut offsets[from..to],
        );
        from = to;
    }
}
