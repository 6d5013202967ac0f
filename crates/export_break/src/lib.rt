// Greedy and balanced breaking, for a host in C or C++ (include/fratolivem.h). Enums do not cross, so kinds are codes
// here, and a code that names nothing is refusal 5. Every call takes any bits; all else is inside.
#![tactic(auto)]

ghost use Rattle.std.specs.Prelude.{◌≡◌, Bool};
ghost use Rattle.checks.specs.Marks.{as_answer};
ghost use Rattle.break_greedy.specs.Calls.{breaking_verdict};
ghost use Rattle.export_break.specs.Breaks.{kind_number, Crossed, greedy_from_c, BalancedFromC};
ghost use Rattle.balance.specs.Calls.{break_lent};

use checks::{Done, Refusal};
use export_answer::CAnswer;
use keywords::{AvailableSpace, space_of};

// The answer where the kind names nothing. No call inside knows such a kind: only the checks are run, and one of them
// refuses.
#[tactic(auto, unfolding(checks::specs::Marks::least_of), using(checks::proofs::Checks::least_one))]
fn unnamed(
    limit_kind: u32,
    space: AvailableSpace,
    gap: f32,
    sizes: &[f32],
    room: bool,
) -> Result<Done, Refusal>
    ensures { result ≡ as_answer (breaking_verdict (kind_number limit_kind) space gap sizes.now room) 0 0 }
{
    let kind = checks_number::mark_code(2, limit_kind, 0);
    break_greedy::check_breaking(kind, space, gap, sizes, room)?;
    Ok(Done {
        lines: 0,
        rounds: 0,
    })
}

#[unsafe(no_mangle)]
pub extern "C" fn fratolivem_greedy(
    limit_kind: u32,
    limit: f32,
    gap: f32,
    sizes: &[f32],
    counts: &mut [u32],
) -> CAnswer
    ensures { Crossed result counts.new (greedy_from_c limit_kind limit gap sizes.now
        counts.old) }
{
    let space = space_of(limit_kind, limit);
    if 2 < limit_kind {
        return unnamed(limit_kind, space, gap, sizes, sizes.len() <= counts.len()).into();
    }
    break_greedy::greedy(space, gap, sizes, counts).into()
}

#[unsafe(no_mangle)]
pub extern "C" fn fratolivem_balanced(
    limit_kind: u32,
    limit: f32,
    gap: f32,
    minimum: u32,
    sizes: &[f32],
    counts: &mut [u32],
    work: &mut [u32],
    sums: &mut [f64],
) -> CAnswer
    ensures { BalancedFromC limit_kind limit gap minimum sizes.now
        (break_lent counts.old work.old sums.old) result
        (break_lent counts.new work.new sums.new) }
{
    let space = space_of(limit_kind, limit);
    if 2 < limit_kind {
        let room = balance::has_room(sizes.len(), counts.len(), work.len(), sums.len());
        return unnamed(limit_kind, space, gap, sizes, room).into();
    }
    balance::balanced(space, gap, minimum, sizes, counts, work, sums).into()
}
