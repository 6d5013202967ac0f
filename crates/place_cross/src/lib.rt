// Lines and items across: document 01, "Cross axis", second half (CSS-FLEX 9.4, steps 9 and 11, and 9.6).
#![tactic(auto)]

ghost use Rattle.std.specs.Prelude.{◌≡◌, ◌≤◌, ◌-◌, slice_range};
ghost use Rattle.place_size.specs.CrossSize.{count};
ghost use Rattle.place_size.specs.Lists.{lists_of, part};
ghost use Rattle.place_cross.specs.Parts.{SameLengths};

use place_size::CrossLists;

pub mod lines; // lines.rt: lines stretched and placed along the cross axis
pub mod cross_axis; // cross_axis.rt: the items of one line across it

// The items of a line with what places them in it: the codes of `align-self`, and of an auto cross size.
#[derive(Clone, Copy)]
pub struct AcrossLists<'a> {
    pub cross: CrossLists<'a>,
    pub alignment: &'a [u32],
    pub auto_size: &'a [u32],
}

impl<'a> AcrossLists<'a> {
    // The items from one up to another, as the items of a line. No entry point: the lists have them.
    pub fn part(self, from: usize, to: usize) -> AcrossLists<'a>
        requires same_lengths { SameLengths (lists_of self.cross) self.alignment.now self.auto_size.now }
        requires in_lists { (from ≤ to) × (to ≤ count (lists_of self.cross)) }
        ensures is_part { lists_of result.cross ≡ part from to (lists_of self.entry.cross) }
        ensures alignment { result.alignment.now ≡ slice_range self.entry.alignment.now from to }
        ensures auto_size { result.auto_size.now ≡ slice_range self.entry.auto_size.now from to }
        ensures same_lengths { SameLengths (lists_of result.cross) result.alignment.now result.auto_size.now }
        ensures counted { count (lists_of result.cross) ≡ to - from }
    {
        AcrossLists {
            cross: self.cross.part(from, to),
            alignment: &self.alignment[from..to],
            auto_size: &self.auto_size[from..to],
        }
    }
}

// The lists that the answers for a line's items are written to: used cross sizes, used margins and offsets.
#[derive(Drop)]
pub struct AcrossCells<'a> {
    pub sizes: &'a mut [f32],
    pub used_start: &'a mut [f32],
    pub used_end: &'a mut [f32],
    pub offsets: &'a mut [f32],
}
