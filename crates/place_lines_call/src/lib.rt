// The call for a container's lines along the cross axis, on any bits.
#![tactic(auto)]

ghost use Rattle.std.specs.Prelude.{◌≡◌, [], ◌∷◌, ◌≤◌, length};
ghost use Rattle.checks.specs.Domain.{checked};
ghost use Rattle.checks.specs.Shapes.{shape_of};
ghost use Rattle.place_lines_call.specs.LinesCall.{cross_lines_input, lines_result, lines_call};

use checks::shapes::check_lists;
use checks::{Kind, Refusal, judge, least};
use checks_list::whole::mark_list;
use checks_number::mark_code;
use place_checks::numbers::{CrossNumbers, cross_of, mark_cross};
use place_cross::lines;

// Checks 1 and 2.
fn check_lines_shape(n: usize, sizes: usize, offsets: usize) -> Result<(), Refusal>
    ensures { result ≡ shape_of (n ∷ []) (sizes ∷ offsets ∷ []) n }
{
    check_lists(&[n], &[sizes, offsets], n)
}

// Checks 3 to 5. The alignment is a code here and in the call, since `lines_call` answers 5 for one that names nothing.
#[tactic(auto, using(crate::proofs::LinesCalled::lines_checked))]
fn check_lines_numbers(c: CrossNumbers, alignment: u32, lines: &[f32]) -> Result<(), Refusal>
    requires { length lines.now ≤ 1024 }
    ensures { result ≡ checked (cross_lines_input c alignment lines.now) (Ok tt) }
{
    let container = least(mark_code(13, alignment, 0), mark_cross(c));
    judge(least(container, mark_list(Kind::Worked, lines)))
}

// Stretches and places the lines, and answers with the container's inner cross size. The two lent lists stay by
// themselves, as C lends them.
#[tactic(auto, unfolding(crate::specs::LinesCall::cross_lines_verdict))]
pub fn place_lines(
    c: CrossNumbers,
    alignment: u32,
    lines: &[f32],
    sizes: &mut [f32],
    offsets: &mut [f32],
) -> Result<f32, Refusal>
    ensures { lines_result result sizes.new offsets.new
        ≡ lines_call c alignment lines.now sizes.old offsets.old }
{
    check_lines_shape(lines.len(), sizes.len(), offsets.len())?;
    check_lines_numbers(c, alignment, lines)?;
    let alignment = keywords::content_of(alignment);
    Ok(lines::align_lines(cross_of(c), alignment, lines, sizes, offsets))
}
