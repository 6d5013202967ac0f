// The pass over the unpacked lists, and its answer as it crosses to C. No entry points.
ghost use Rattle.std.specs.Prelude.{◌≡◌, ◌*◌, ◌≤◌, length, take};
ghost use Rattle.pass.specs.Lent.{lent_of, SameLists};
ghost use Rattle.export_pass.specs.Passed.{c_passed, PassedFromC};

use crate::CPassed;
use checks::Refusal;
use export_answer::CAnswer;
use pass::{Layout, Lent};
use pass_container::Container;

impl From<Result<Layout, Refusal>> for CPassed {
    ghost from_gives = { λ told passed. passed ≡ c_passed told };

    fn from(told: Result<Layout, Refusal>) -> CPassed {
        match told {
            Ok(layout) => CPassed {
                number: 0,
                at: 0,
                place: 0,
                lines: layout.lines,
                rounds: layout.rounds,
                inner_cross: layout.inner_cross,
            },
            Err(why) => {
                let refused = CAnswer::from(why);
                CPassed {
                    number: refused.number,
                    at: refused.at,
                    place: refused.place,
                    lines: 0,
                    rounds: 0,
                    inner_cross: 0.0,
                }
            }
        }
    }
}

// The pass over the first m items of the unpacked lists. No entry point.
pub fn finish(c: Container, m: usize, nums: &[f32], codes: &[u32], lent: &mut Lent) -> CPassed
    requires { (14 * m ≤ length nums.now) × (8 * m ≤ length codes.now) }
    ensures passed { PassedFromC c m (take (14 * m) nums.now) (take (8 * m) codes.now) (lent_of lent.old) result
        (lent_of lent.new) }
    ensures same_lists { SameLists lent.old lent.new }
{
    pass::pass(c, m, &nums[..14 * m], &codes[..8 * m], lent).into()
}
