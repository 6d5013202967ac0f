// The break limit, for a host in C or C++ (include/fratolivem.h). Enums do not cross, so kinds are codes here, and a
// code that names nothing is refusal 5. The call takes any bits; all else is inside.
#![tactic(auto)]

ghost use Rattle.std.specs.Prelude.{◌≡◌};
ghost use Rattle.checks.specs.Domain.{refusal_of};
ghost use Rattle.checks.specs.Marks.{least_of};
ghost use Rattle.export_answer.specs.Crossing.{crossed};
ghost use Rattle.export_limit.specs.Limits.{c_space, c_refused, c_limit, asked_codes, query_of, answered, limit_from_c};

use break_limit::Query;
use checks::{Mark, Refusal, least};
use checks_number::mark_code;
use export_answer::CAnswer;
use keywords::{AvailableSpace, bound_of, space_of};

// A break limit: number and place as in every answer, then its kind (0 definite, 1 min-content, 2 max-content, 3 none:
// refused), and the limit where it is definite.
#[repr(C)]
#[derive(Clone, Copy)]
pub struct CLimit {
    pub number: u32,
    pub at: u32,
    pub place: u32,
    pub kind: u32,
    pub limit: f32,
}

impl From<AvailableSpace> for CLimit {
    ghost from_gives = { λ space limit. limit ≡ c_space space };

    fn from(space: AvailableSpace) -> CLimit {
        let (kind, limit) = match space {
            AvailableSpace::Definite(x) => (0, x),
            AvailableSpace::MinContent => (1, 0.0),
            AvailableSpace::MaxContent => (2, 0.0),
        };
        CLimit {
            number: 0,
            at: 0,
            place: 0,
            kind,
            limit,
        }
    }
}

// A refused limit that a host hands on unread must be refused again: its kind names none.
impl From<Refusal> for CLimit {
    ghost from_gives = { λ why limit. limit ≡ c_refused (crossed (refusal_of why)) };

    fn from(why: Refusal) -> CLimit {
        let told = CAnswer::from(why);
        CLimit {
            number: told.number,
            at: told.at,
            place: told.place,
            kind: 3,
            limit: 0.0,
        }
    }
}

impl From<Result<AvailableSpace, Refusal>> for CLimit {
    ghost from_gives = { λ told limit. limit ≡ c_limit told };

    fn from(told: Result<AvailableSpace, Refusal>) -> CLimit {
        match told {
            Ok(space) => space.into(),
            Err(why) => why.into(),
        }
    }
}

// What C hands over, in its order.
#[derive(Clone, Copy)]
struct Asked {
    known: u32,
    main: u32,
    row: u32,
    kind: u32,
    available: f32,
    has_minimum: u32,
    minimum: f32,
    has_maximum: u32,
    maximum: f32,
}

impl Asked {
    // The mark of its codes, all of them the container's.
    fn mark(self) -> Mark
        ensures { result.0 ≡ least_of (asked_codes self) 0 }
    {
        let flags = least(
            mark_code(1, self.known, 0),
            least(mark_code(1, self.main, 0), mark_code(1, self.row, 0)),
        );
        let kinds = least(
            mark_code(2, self.kind, 0),
            least(
                mark_code(1, self.has_minimum, 0),
                mark_code(1, self.has_maximum, 0),
            ),
        );
        least(flags, kinds)
    }

    fn query(self) -> Query
        ensures { result ≡ query_of self }
    {
        Query {
            known_is_definite: self.known == 1,
            main_is_definite: self.main == 1,
            is_row: self.row == 1,
            available: space_of(self.kind, self.available),
            minimum: bound_of(self.has_minimum, self.minimum),
            maximum: bound_of(self.has_maximum, self.maximum),
        }
    }

    fn answer(self) -> Result<AvailableSpace, Refusal>
        ensures { result ≡ answered self }
    {
        let query = self.query();
        break_limit::check_limit(self.mark(), query)?;
        Ok(break_limit::limit_of(query))
    }
}

#[unsafe(no_mangle)]
pub extern "C" fn fratolivem_break_limit(
    known: u32,
    main: u32,
    row: u32,
    kind: u32,
    available: f32,
    has_minimum: u32,
    minimum: f32,
    has_maximum: u32,
    maximum: f32,
) -> CLimit
    ensures { result ≡ limit_from_c (record {
      known = known;
      main = main;
      row = row;
      kind = kind;
      available = available;
      has_minimum = has_minimum;
      minimum = minimum;
      has_maximum = has_maximum;
      maximum = maximum;
    }) }
{
    let asked = Asked {
        known,
        main,
        row,
        kind,
        available,
        has_minimum,
        minimum,
        has_maximum,
        maximum,
    };
    asked.answer().into()
}
