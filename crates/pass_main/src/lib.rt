// The main axis of the whole pass: each line flexed, and its items spaced (document 01, "Flexible lengths" and "Main
// axis").
#![tactic(auto)]

ghost use Rattle.std.specs.Prelude.{◌≡◌, ◌||◌, ◌*◌, ◌≤◌, eqb, length};
ghost use Rattle.pass_main.specs.Stage.{MainStageReady, Run, MainStage};

use flex::Item;
use flex_lines::flex_all;
use pass_container::columns::store_four;
use pass_container::{Container, Items};
use pass_walk::main_by_line;

pub mod reading; // reading.rt: the items' numbers, into the table

// Whether items are walked from the last one. The direction is C's code, which the checks hold to 0 to 3.
fn is_reversed(direction: u32) -> bool
    ensures { result ≡ (eqb direction 1 || eqb direction 3) }
{
    direction == 1 || direction == 3
}

// Flexes and spaces, into lists of n cells each. Here and below the lists are single: `MainStage` speaks of each, and
// of four fields behind one `&mut` parts cannot be lent on together in a form that the borrow checker proves.
fn run_main(
    c: Container,
    items: Items,
    table: &[Item],
    counts: &[u32],
    targets: &mut [f32],
    offsets: &mut [f32],
    starts: &mut [f32],
    ends: &mut [f32],
    free: &mut [i32],
    rounds: &mut [u32],
) -> u32
    requires main_stage_ready { MainStageReady c items.count table.now items.numbers.now items.codes.now counts.now
        free.old rounds.old }
    requires targets_len { (length targets.old ≡ items.count) × (length offsets.old ≡ items.count)
        × (length starts.old ≡ items.count) × (length ends.old ≡ items.count) }
    ensures { Run c items.entry.count items.entry.numbers.now items.entry.codes.now counts.now free.old rounds.old
        result targets.new offsets.new starts.new ends.new
        free.new rounds.new }
{
    let inner = grid::clean(c.inner_main);
    let gap = grid::clean(c.gap_main);
    let sum = flex_all(
        &table[..items.count],
        inner,
        gap,
        counts,
        targets,
        free,
        rounds,
    );
    main_by_line(
        c.inner_main,
        c.gap_main,
        keywords::content_of(c.justify_content),
        is_reversed(c.direction),
        counts,
        items.spaced(targets),
        offsets,
        starts,
        ends,
    );
    sum
}

// The same by way of lists that have the cells, into lists 0 to 3 of `placed`.
fn place_by_way(
    c: Container,
    items: Items,
    table: &[Item],
    counts: &[u32],
    targets: &mut [f32],
    offsets: &mut [f32],
    starts: &mut [f32],
    ends: &mut [f32],
    placed: &mut [f32],
    free: &mut [i32],
    rounds: &mut [u32],
) -> u32
    requires main_stage_ready { MainStageReady c items.count table.now items.numbers.now items.codes.now counts.now
        free.old rounds.old
        × (4 * items.count ≤ length placed.old) }
    requires n_in_bounds { (items.count ≤ length targets.old) × (items.count ≤ length offsets.old)
        × (items.count ≤ length starts.old) × (items.count ≤ length ends.old) }
    ensures { MainStage c items.entry.count items.entry.numbers.now items.entry.codes.now counts.now
        placed.old free.old rounds.old result placed.new free.new
        rounds.new }
{
    let n = items.count;
    let sum = run_main(
        c,
        items,
        table,
        counts,
        &mut targets[..n],
        &mut offsets[..n],
        &mut starts[..n],
        &mut ends[..n],
        free,
        rounds,
    );
    store_four(
        &targets[..n],
        &offsets[..n],
        &starts[..n],
        &ends[..n],
        n,
        0,
        placed,
    );
    sum
}

// The main axis of accepted items, whose lines are known. No entry point: it asks what the checks show.
pub fn place_main_axis(
    c: Container,
    items: Items,
    table: &[Item],
    counts: &[u32],
    placed: &mut [f32],
    free: &mut [i32],
    rounds: &mut [u32],
) -> u32
    requires { MainStageReady c items.count table.now items.numbers.now items.codes.now counts.now free.old
        rounds.old
        × (4 * items.count ≤ length placed.old) }
    ensures { MainStage c items.entry.count items.entry.numbers.now items.entry.codes.now counts.now
        placed.old free.old rounds.old result placed.new free.new
        rounds.new }
{
    // In the frame, not in a `Vec`: no heap.
    let mut targets = [0.0; 1024];
    let mut offsets = [0.0; 1024];
    let mut starts = [0.0; 1024];
    let mut ends = [0.0; 1024];
    place_by_way(
        c,
        items,
        table,
        counts,
        &mut targets,
        &mut offsets,
        &mut starts,
        &mut ends,
        placed,
        free,
        rounds,
    )
}
