// An answer as it crosses to C, where no enum does: number, place, lines and rounds, each a number (document 01,
// "Domain and refusal numbers").
#![tactic(auto)]

ghost use Rattle.std.specs.Prelude.{◌≡◌};
ghost use Rattle.checks.specs.Domain.{refusal_of};
ghost use Rattle.export_answer.specs.Crossing.{crossed, c_answer};

use checks::{Done, Place, Refusal};

// An answer's number, its place, its lines and its rounds. `at` says where: 0 nowhere, 1 the container, 2 the item or
// line `place`.
#[repr(C)]
#[derive(Clone, Copy)]
pub struct CAnswer {
    pub number: u32,
    pub at: u32,
    pub place: u32,
    pub lines: u32,
    pub rounds: u32,
}

impl From<Refusal> for CAnswer {
    ghost from_gives = { λ why answer. answer ≡ crossed (refusal_of why) };

    fn from(why: Refusal) -> CAnswer {
        let (at, place) = match why.place() {
            Place::Container => (1, 0),
            Place::At(i) => (2, i),
        };
        CAnswer {
            number: why.number(),
            at,
            place,
            lines: 0,
            rounds: 0,
        }
    }
}

impl From<Result<Done, Refusal>> for CAnswer {
    ghost from_gives = { λ told answer. answer ≡ c_answer told };

    fn from(told: Result<Done, Refusal>) -> CAnswer {
        match told {
            Ok(done) => CAnswer {
                number: 0,
                at: 0,
                place: 0,
                lines: done.lines,
                rounds: done.rounds,
            },
            Err(why) => why.into(),
        }
    }
}
