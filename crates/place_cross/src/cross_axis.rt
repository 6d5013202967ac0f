// The items of one line across it: used cross sizes (CSS-FLEX 9.4, step 11), auto margins and `align-self` (9.6).
ghost use Rattle.std.specs.Prelude.{◌≡◌};
ghost use Rattle.place_size.specs.CrossSize.{count};
ghost use Rattle.place_size.specs.Lists.{lists_of};
ghost use Rattle.place_cross.specs.CrossAxis.{has_auto, is_stretched, used_size, free_cross, auto_margin, start_margin};
ghost use Rattle.place_cross.specs.CrossAxis.{end_margin, cross_offset, placed_item, Across};
ghost use Rattle.place_cross.specs.Cells.{SameCells};
ghost use Rattle.place_cross.specs.Parts.{SameLengths, AcrossRoom};

use crate::{AcrossCells, AcrossLists};
use keywords::SelfAlignment;
use place_size::cross_size;
use place_size::cross_size::CrossItem;

// Where an item stands across its line.
#[derive(Clone, Copy)]
pub struct CrossPlace {
    pub size: f32,
    pub start: f32,
    pub end: f32,
    pub offset: f32,
}

fn has_auto(it: CrossItem) -> bool
    ensures { result ≡ has_auto it }
{
    it.auto_start || it.auto_end
}

// An item stretches where its size and neither of its margins is against it.
#[tactic(auto, unfolding(crate::specs::CrossAxis::is_stretched))]
fn is_stretched(it: CrossItem, alignment: SelfAlignment, auto_size: bool) -> bool
    ensures { result ≡ is_stretched it alignment auto_size }
{
    matches!(alignment, SelfAlignment::Stretch) && !has_auto(it) && auto_size
}

#[tactic(auto, unfolding(crate::specs::CrossAxis::used_size))]
fn used_cross_size(line: f32, it: CrossItem, stretched: bool) -> f32
    ensures { result ≡ used_size line it stretched }
{
    let size = if stretched {
        line - cross_size::margin_sum(it)
    } else {
        it.measured
    };
    cross_size::clamp_item(it, size)
}

#[tactic(auto, unfolding(crate::specs::CrossAxis::free_cross))]
fn free_cross_space(line: f32, it: CrossItem, size: f32) -> f32
    ensures { result ≡ free_cross line it size }
{
    line - (size + cross_size::margin_sum(it))
}

// What an auto margin takes of free space of 0 or more: all, or half of it beside another.
#[tactic(auto, unfolding(crate::specs::CrossAxis::auto_margin))]
fn auto_margin(free: f32, it: CrossItem) -> f32
    ensures { result ≡ auto_margin free it }
{
    if it.auto_start && it.auto_end {
        free / 2.0
    } else {
        free
    }
}

// On a line too short for an item and its margins an auto start margin is 0 ..
#[tactic(auto, unfolding(crate::specs::CrossAxis::start_margin))]
fn start_margin(free: f32, it: CrossItem) -> f32
    ensures { result ≡ start_margin free it }
{
    if it.auto_start {
        if free < 0.0 {
            0.0
        } else {
            auto_margin(free, it)
        }
    } else {
        it.start
    }
}

// .. and what is missing is taken off the end margin, auto or given, so that all together is as large as the line.
#[tactic(auto, unfolding(crate::specs::CrossAxis::end_margin))]
fn end_margin(free: f32, it: CrossItem) -> f32
    ensures { result ≡ end_margin free it }
{
    if it.auto_end {
        if free < 0.0 {
            free
        } else {
            auto_margin(free, it)
        }
    } else if it.auto_start && free < 0.0 {
        it.end + free
    } else {
        it.end
    }
}

// An auto margin leaves nothing to align.
#[tactic(auto, unfolding(crate::specs::CrossAxis::cross_offset))]
fn cross_offset(free: f32, reversed: bool, it: CrossItem, alignment: SelfAlignment) -> f32
    ensures { result ≡ cross_offset free reversed it alignment }
{
    if has_auto(it) {
        0.0
    } else {
        place_align::align_item(free, reversed, alignment)
    }
}

#[tactic(auto, unfolding(crate::specs::CrossAxis::placed_item))]
fn place_item(
    line: f32,
    reversed: bool,
    it: CrossItem,
    alignment: SelfAlignment,
    auto_size: bool,
) -> CrossPlace
    ensures { result ≡ placed_item line reversed it alignment auto_size }
{
    let size = used_cross_size(line, it, is_stretched(it, alignment, auto_size));
    let free = free_cross_space(line, it, size);
    CrossPlace {
        size: grid::clean(size),
        start: grid::clean(start_margin(free, it)),
        end: grid::clean(end_margin(free, it)),
        offset: grid::clean(cross_offset(free, reversed, it, alignment)),
    }
}

// CSS-FLEX 9.6 of one accepted line: no entry point, since the lists are of one length, and there is room.
pub fn place_items(line: f32, reversed: bool, items: AcrossLists, cells: &mut AcrossCells)
    requires same_lengths { SameLengths (lists_of items.cross) items.alignment.now items.auto_size.now }
    requires across_room { AcrossRoom (count (lists_of items.cross)) cells.old.sizes.now cells.old.used_start.now
        cells.old.used_end.now cells.old.offsets.now }
    ensures placed { Across line reversed (lists_of items.entry.cross) items.entry.alignment.now
        items.entry.auto_size.now cells.old.sizes.now cells.old.used_start.now cells.old.used_end.now
        cells.old.offsets.now cells.new.sizes.now cells.new.used_start.now cells.new.used_end.now
        cells.new.offsets.now }
    ensures same_cells { SameCells cells.old cells.new }
{
    let height = grid::clean(line);
    for i in 0..items.cross.measured.len() {
        let p = place_item(
            height,
            reversed,
            cross_size::item_at(items.cross, i),
            keywords::self_of(items.alignment[i]),
            items.auto_size[i] != 0,
        );
        cells.sizes[i] = p.size;
        cells.used_start[i] = p.start;
        cells.used_end[i] = p.end;
        cells.offsets[i] = p.offset;
    }
}
