// The call that places the items of a line along it, for a host in C or C++ (include/fratolivem.h): the call inside it,
// on any bits.
#![tactic(auto)]

ghost use Rattle.std.specs.Prelude.{◌≡◌};
ghost use Rattle.place_main.specs.MainAxis.{line_lists};
ghost use Rattle.place_main.specs.MainCall.{main_call};
ghost use Rattle.export_main.specs.Placed.{c_main, main_from_c};

use export_answer::CAnswer;
use place_main::LineLists;
use place_main::main_call::place_main;

#[unsafe(no_mangle)]
pub extern "C" fn fratolivem_place_main<'a>(
    inner: f32,
    gap: f32,
    justify: u32,
    reversed: u32,
    targets: &'a [f32],
    start: &'a [f32],
    end: &'a [f32],
    auto_start: &'a [u32],
    auto_end: &'a [u32],
    offsets: &mut [f32],
    used_start: &mut [f32],
    used_end: &mut [f32],
) -> CAnswer
    ensures { c_main result offsets.new used_start.new used_end.new
        ≡ main_from_c (main_call inner gap justify reversed (line_lists targets.now start.now
        end.now auto_start.now auto_end.now) offsets.old
        used_start.old used_end.old) }
{
    let items = LineLists {
        targets,
        start,
        end,
        auto_start,
        auto_end,
    };
    place_main(
        inner, gap, justify, reversed, items, offsets, used_start, used_end,
    )
    .into()
}
