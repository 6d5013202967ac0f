// Refusals 1 to 6 of document 01, "Domain and refusal numbers": what a number may be, which refusal comes first, and
// what a call answers. A call takes the marks of its numbers (crates `checks_number` and `checks_list`), keeps the
// least, and has it judged once, before its first store. These are parts for calls of other crates to compose, and no
// entry points. That there are at most 1,024 items is a clause of theirs and of others, and no type: a number of items
// is the length of a list.
#![tactic(auto)]

ghost use Rattle.std.specs.Prelude.{◌≡◌, min};
ghost use Rattle.checks.specs.Domain.{shape, summed, refusal_of, where_of};
ghost use Rattle.checks.specs.Marks.{judged, place_of};

pub mod shapes; // shapes.rt: checks 1 and 2 of the lengths of lists

// What a number is, and so which grid and range it is held to.
#[derive(Clone, Copy)]
pub enum Kind {
    // A size handed to breaking, or a definite limit: on the grid, at most 262,144 px either way.
    Length,
    // On the grid, at most 131,072 px either way.
    Margin,
    // Gaps, padding plus border, minima, maxima, flex bases, measured and inner sizes: a length of at least 0.
    Size,
    // Grow and shrink: any float from 0 to 1,024.
    Factor,
    // A target or line size that an earlier step worked out: any finite float, at most 16,777,216 px either way.
    Worked,
}

#[derive(Clone, Copy, Debug, PartialEq, Eq)]
pub enum Place {
    Container,
    // An item, or in a list of lines a line.
    At(u32),
}

// Why a call refuses.
#[derive(Clone, Copy, Debug, PartialEq, Eq)]
pub enum Refusal {
    TooManyItems,
    TooLittleRoom,
    NotFinite(Place),
    OffGrid(Place),
    OutOfRange(Place),
    SumTooLarge,
}

// What a refusal is told as.
impl Refusal {
    pub fn number(self) -> u32
        ensures { result ≡ (refusal_of self).number }
    {
        match self {
            Refusal::TooManyItems => 1,
            Refusal::TooLittleRoom => 2,
            Refusal::NotFinite(_) => 3,
            Refusal::OffGrid(_) => 4,
            Refusal::OutOfRange(_) => 5,
            Refusal::SumTooLarge => 6,
        }
    }

    pub fn place(self) -> Place
        ensures { where_of result ≡ (refusal_of self).place }
    {
        match self {
            Refusal::NotFinite(place) | Refusal::OffGrid(place) | Refusal::OutOfRange(place) =>
                place,
            Refusal::TooManyItems | Refusal::TooLittleRoom | Refusal::SumTooLarge => {
                Place::Container
            }
        }
    }
}

// What a call answers where it refuses nothing.
#[derive(Clone, Copy, Debug, PartialEq, Eq)]
pub struct Done {
    pub lines: u32,
    pub rounds: u32,
}

// The first check that a number fails, and its place, in one number, so that the least of all marks is the refusal that
// comes first: `judged-checked` and `accepted` speak of it as a number.
#[derive(Clone, Copy)]
pub struct Mark(pub u32);

// The mark of a number that no check refuses.
pub fn no_mark() -> Mark
    ensures { result.0 ≡ 6144 }
{
    Mark(6144)
}

// The one that comes first.
pub fn least(a: Mark, b: Mark) -> Mark
    ensures { result.0 ≡ min a.0 b.0 }
{
    Mark(a.0.min(b.0))
}

// Checks 3 to 5, from the least mark of all numbers.
#[tactic(auto, unfolding(crate::specs::Marks::judged))]
pub fn judge(m: Mark) -> Result<(), Refusal>
    ensures { result ≡ judged m.0 }
{
    let n = m.0;
    if n < 2048 {
        return Err(Refusal::NotFinite(place_of(n)));
    }
    if n < 4096 {
        return Err(Refusal::OffGrid(place_of(n - 2048)));
    }
    if n < 6144 {
        return Err(Refusal::OutOfRange(place_of(n - 4096)));
    }
    Ok(())
}

// The place in a mark, by the name that the definition has: a `From` of any number would say more than is meant.
fn place_of(n: u32) -> Place
    ensures { result ≡ place_of n }
{
    match n {
        0 => Place::Container,
        _ => Place::At(n - 1),
    }
}

// Checks 1 and 2: `longest` is the length of the longest input list, and `room` says that the lists are of one length
// and that there is room.
pub fn check_shape(longest: usize, room: bool) -> Result<(), Refusal>
    ensures { result ≡ shape longest room }
{
    if 1024 < longest {
        return Err(Refusal::TooManyItems);
    }
    if !room {
        return Err(Refusal::TooLittleRoom);
    }
    Ok(())
}

// Check 6.
pub fn check_sum(total: u64) -> Result<(), Refusal>
    ensures { result ≡ summed total }
{
    if total <= 16777216 {
        Ok(())
    } else {
        Err(Refusal::SumTooLarge)
    }
}
