// The whole pass for a host in C or C++: its items are a slice of structs, its answer is a plain struct.
#![tactic(auto)]

ghost use Rattle.std.specs.Prelude.{length};
ghost use Rattle.pass.specs.Laid.{pass_lent};
ghost use Rattle.pass_items.specs.Items.{numbers_of, codes_of};
ghost use Rattle.export_pass.specs.Passed.{PassedFromC};

use pass::Lent;
use pass_container::Container;
use pass_items::Item;

pub mod finishing;

// An answer's number, its place, its lines, its rounds and its inner cross size. `at` says where: 0 nowhere, 1 the
// container, 2 the item `place`.
#[repr(C)]
#[derive(Clone, Copy)]
pub struct CPassed {
    pub number: u32,
    pub at: u32,
    pub place: u32,
    pub lines: u32,
    pub rounds: u32,
    pub inner_cross: f32,
}

// Of 1,025 items the pass refuses as of any more, so no more are unpacked.
#[unsafe(no_mangle)]
pub extern "C" fn fratolivem_pass(
    c: Container,
    items: &[Item],
    placed: &mut [f32],
    lines: &mut [f32],
    counts: &mut [u32],
    rounds: &mut [u32],
    free: &mut [i32],
    work: &mut [u32],
    sums: &mut [f64],
) -> CPassed
    ensures { PassedFromC c (length items.now) (numbers_of items.now)
        (codes_of items.now) (pass_lent placed.old lines.old counts.old
        rounds.old free.old work.old sums.old)
        result (pass_lent placed.new lines.new counts.new rounds.new
        free.new work.new sums.new) }
{
    let m = pass_items::held(items.len());
    // In the frame, not in a `Vec`: no heap.
    let mut nums = [0.0f32; 14350];
    let mut codes = [0u32; 8200];
    pass_items::unpack(items, m, &mut nums, &mut codes);
    let lent = &mut Lent {
        placed,
        lines,
        counts,
        rounds,
        free,
        work,
        sums,
    };
    finishing::finish(c, m, &nums, &codes, lent)
}
