// The cross axis in the whole pass: the lines along it, and the items across them, written to the lists that the pass
// is lent. No entry points: the pass checks before it comes here.
#![tactic(auto)]

ghost use Rattle.std.specs.Prelude.{◌≡◌, ◌*◌, ◌≤◌, length};
ghost use Rattle.pass_walk.specs.Sizes.{cross_sizes};
ghost use Rattle.pass_container.specs.Columns.{cross_items};
ghost use Rattle.pass_container.specs.Container.{cross_axis};
ghost use Rattle.pass_cross.specs.CrossStage.{CrossReady, AlignedLines, LinesPlaced, PlacedAcross, ItemsAcross};

use keywords::{content_of, is_reversed, wrap_of};
use pass_container::columns::{store_column, store_four};
use pass_container::{Container, Items};
use pass_walk::cross_sizes;
use pass_walk_across::across_by_line;
use place_checks::numbers::cross_of;
use place_cross::lines::align_lines;
use place_size::container::Cross;

fn cross_axis(c: Container) -> Cross
    ensures { result ≡ cross_axis c }
{
    cross_of(c.into())
}

// The size of each line, from its own items.
fn size_lines(c: Container, items: Items, counts: &[u32], sizes: &mut [f32])
    requires { CrossReady items.count items.numbers.now items.codes.now counts.now × (items.count ≤ length sizes.old) }
    ensures { sizes.new ≡ cross_sizes (cross_axis c) counts.now
        (cross_items items.entry.count items.entry.numbers.now items.entry.codes.now) sizes.old }
{
    cross_sizes(cross_axis(c), counts, items.cross(), sizes);
}

// The lines' sizes, stretched, their offsets, and the container's inner cross size. Here and below the lent lists are
// single: of fields behind one `&mut` parts cannot be lent on together in a form that the borrow checker proves.
fn align_sized(
    c: Container,
    items: Items,
    counts: &[u32],
    sizes: &mut [f32],
    offsets: &mut [f32],
) -> f32
    requires { CrossReady items.count items.numbers.now items.codes.now counts.now × (items.count ≤ length sizes.old)
        × (items.count ≤ length offsets.old) }
    ensures { AlignedLines c items.entry.count items.entry.numbers.now items.entry.codes.now counts.now
        sizes.old offsets.old result sizes.new offsets.new }
{
    // In the frame, not in a `Vec`: no heap.
    let mut asked = [0.0; 1024];
    size_lines(c, items, counts, &mut asked);
    let k = counts.len();
    align_lines(
        cross_axis(c),
        content_of(c.align_content),
        &asked[..k],
        sizes,
        offsets,
    )
}

// The same in the two lists by line that the pass is lent. No entry point.
pub fn lines_along(c: Container, items: Items, counts: &[u32], lines: &mut [f32]) -> f32
    requires { CrossReady items.count items.numbers.now items.codes.now counts.now
        × (2 * items.count ≤ length lines.old) }
    ensures { LinesPlaced c items.entry.count items.entry.numbers.now items.entry.codes.now counts.now result
        lines.old lines.new }
{
    let n = items.count;
    // In the frame, not in a `Vec`: no heap.
    let mut sizes = [0.0; 1024];
    let mut offsets = [0.0; 1024];
    let inner = align_sized(c, items, counts, &mut sizes[..n], &mut offsets[..n]);
    store_column(&sizes[..n], n, 0, lines);
    store_column(&offsets[..n], n, 1, lines);
    inner
}

// The items across their lines: cross sizes, used margins and offsets.
fn across_lines(
    c: Container,
    items: Items,
    counts: &[u32],
    line_sizes: &[f32],
    sizes: &mut [f32],
    starts: &mut [f32],
    ends: &mut [f32],
    offsets: &mut [f32],
)
    requires { CrossReady items.count items.numbers.now items.codes.now counts.now
        × (items.count ≤ length line_sizes.now)
        × (items.count ≤ length sizes.old) × (items.count ≤ length starts.old) × (items.count ≤ length ends.old)
        × (items.count ≤ length offsets.old) }
    ensures { PlacedAcross c items.entry.count items.entry.numbers.now items.entry.codes.now counts.now
        line_sizes.now sizes.old starts.old ends.old
        offsets.old sizes.new starts.new ends.new offsets.new }
{
    across_by_line(
        is_reversed(wrap_of(c.wrap)),
        counts,
        line_sizes,
        items.across(),
        sizes,
        starts,
        ends,
        offsets,
    );
}

// The same in the last four lists by item that the pass is lent. No entry point.
pub fn items_across(
    c: Container,
    items: Items,
    counts: &[u32],
    line_sizes: &[f32],
    placed: &mut [f32],
)
    requires { CrossReady items.count items.numbers.now items.codes.now counts.now
        × (items.count ≤ length line_sizes.now)
        × (8 * items.count ≤ length placed.old) }
    ensures { ItemsAcross c items.entry.count items.entry.numbers.now items.entry.codes.now counts.now
        line_sizes.now placed.old placed.new }
{
    let n = items.count;
    // In the frame, not in a `Vec`: no heap.
    let mut sizes = [0.0; 1024];
    let mut starts = [0.0; 1024];
    let mut ends = [0.0; 1024];
    let mut offsets = [0.0; 1024];
    across_lines(
        c,
        items,
        counts,
        line_sizes,
        &mut sizes[..n],
        &mut starts[..n],
        &mut ends[..n],
        &mut offsets[..n],
    );
    store_four(
        &sizes[..n],
        &offsets[..n],
        &starts[..n],
        &ends[..n],
        n,
        4,
        placed,
    );
}
