// Walks over the lines: the main axis, and the lines' cross sizes. Each line is lent its own parts of the lists;
// `Past` of `lists` says what a walk leaves of a lent list. No entry points: the pass checks before it walks.
#![tactic(auto)]

ghost use Rattle.std.specs.Prelude.{◌≡◌};
ghost use Rattle.place_main.specs.Lists as along;
ghost use Rattle.place_size.specs.Lists as across;
ghost use Rattle.pass_walk.specs.Main.{MainLines};
ghost use Rattle.pass_walk.specs.MainParts.{MainReady};
ghost use Rattle.pass_walk.specs.Sizes.{cross_sizes};
ghost use Rattle.pass_walk.specs.SizeParts.{SizesReady};

use keywords::ContentAlignment;
use place_main::LineLists;
use place_main::main_axis::distribute_remaining_free_space;
use place_size::CrossLists;
use place_size::container::Cross;
use place_size::cross_size::calculate_cross_size;

// CSS-FLEX 9.5 of every line: no entry point, since the lines have the items of the lists, and there is room. What is
// lent comes list by list, as the main axis of a line takes it.
pub fn main_by_line(
    inner: f32,
    gap: f32,
    justify: ContentAlignment,
    reversed: bool,
    counts: &[u32],
    items: LineLists,
    offsets: &mut [f32],
    used_start: &mut [f32],
    used_end: &mut [f32],
)
    requires { MainReady counts.now (along.lists_of items) offsets.old used_start.old used_end.old }
    ensures { MainLines inner gap justify reversed counts.now (along.lists_of items.entry)
        offsets.old used_start.old used_end.old offsets.new used_start.new used_end.new }
{
    let mut from = 0;
    for &count in counts {
        let to = from + count as usize;
        distribute_remaining_free_space(
            inner,
            gap,
            justify,
            reversed,
            items.part(from, to),
            &mut offsets[from..to],
            &mut used_start[from..to],
            &mut used_end[from..to],
        );
        from = to;
    }
}

// CSS-FLEX 9.4 of every line: no entry point, since the lines have the items of the lists, and there is room.
pub fn cross_sizes(c: Cross, counts: &[u32], items: CrossLists, sizes: &mut [f32])
    requires { SizesReady counts.now (across.lists_of items) sizes.old }
    ensures { sizes.new ≡ cross_sizes c counts.now (across.lists_of items.entry) sizes.old }
{
    let mut from = 0;
    for (j, &count) in counts.iter().enumerate() {
        let to = from + count as usize;
        sizes[j] = calculate_cross_size(c, items.part(from, to));
        from = to;
    }
}
