// The call that places the items of a line across it, for a host in C or C++ (include/fratolivem.h): the call inside
// it, on any bits.
#![tactic(auto)]

ghost use Rattle.std.specs.Prelude.{◌≡◌};
ghost use Rattle.place_size.specs.CrossSize.{cross_lists};
ghost use Rattle.place_across_call.specs.AcrossCall.{across_call};
ghost use Rattle.export_across.specs.Placed.{c_across, across_from_c};

use export_answer::CAnswer;
use place_cross::{AcrossCells, AcrossLists};
use place_size::CrossLists;

#[unsafe(no_mangle)]
pub extern "C" fn fratolivem_place_across<'a>(
    line: f32,
    reversed: u32,
    measured: &'a [f32],
    minimum: &'a [f32],
    maximum: &'a [f32],
    has_maximum: &'a [u32],
    edges: &'a [f32],
    start: &'a [f32],
    end: &'a [f32],
    auto_start: &'a [u32],
    auto_end: &'a [u32],
    align_self: &'a [u32],
    auto_size: &'a [u32],
    sizes: &mut [f32],
    used_start: &mut [f32],
    used_end: &mut [f32],
    offsets: &mut [f32],
) -> CAnswer
    ensures { c_across result sizes.new used_start.new used_end.new
        offsets.new ≡ across_from_c (across_call line reversed
        (cross_lists measured.now minimum.now maximum.now has_maximum.now
        edges.now start.now end.now auto_start.now
        auto_end.now) align_self.now auto_size.now sizes.old
        used_start.old used_end.old offsets.old) }
{
    let cross = CrossLists {
        measured,
        minimum,
        maximum,
        capped: has_maximum,
        edges,
        start,
        end,
        auto_start,
        auto_end,
    };
    let items = AcrossLists {
        cross,
        alignment: align_self,
        auto_size,
    };
    let cells = &mut AcrossCells {
        sizes,
        used_start,
        used_end,
        offsets,
    };
    place_across_call::place_across(line, reversed, items, cells).into()
}
