// The calls that flex, for a host in C or C++ (include/fratolivem.h). Each is the call inside it, and takes any bits.
#![tactic(auto)]

ghost use Rattle.std.specs.Prelude.{◌≡◌};
ghost use Rattle.flex.specs.Items.{lists};
ghost use Rattle.flex_line_call.specs.Call.{values_of};
ghost use Rattle.export_flex.specs.Flexed.{c_flexed, FlexedFromC, FlexedLinesFromC};

use checks::Refusal;
use export_answer::CAnswer;
use flex::ItemLists;
use flex_rounds::line::Flexing;

// Number and place as in CAnswer, in codes, as no enum crosses to C; then the line's free space before flexing, in
// sixty-fourths, and its rounds. Both are 0 on refusal.
#[repr(C)]
#[derive(Clone, Copy)]
pub struct CFlexed {
    pub number: u32,
    pub at: u32,
    pub place: u32,
    pub free: i32,
    pub rounds: u32,
}

impl From<Result<Flexing, Refusal>> for CFlexed {
    ghost from_gives = { λ told answer. answer ≡ c_flexed (values_of told) };

    fn from(told: Result<Flexing, Refusal>) -> CFlexed {
        match told {
            Ok(line) => CFlexed {
                number: 0,
                at: 0,
                place: 0,
                free: line.free.0,
                rounds: line.rounds,
            },
            Err(why) => {
                let refusal = CAnswer::from(why);
                CFlexed {
                    number: refusal.number,
                    at: refusal.at,
                    place: refusal.place,
                    free: 0,
                    rounds: refusal.rounds,
                }
            }
        }
    }
}

// C passes each list by itself; they go into one bundle here.
#[unsafe(no_mangle)]
pub extern "C" fn fratolivem_flex_line<'a>(
    inner: f32,
    gap: f32,
    base: &'a [f32],
    minimum: &'a [f32],
    maximum: &'a [f32],
    has_maximum: &'a [u32],
    edges: &'a [f32],
    grow: &'a [f32],
    shrink: &'a [f32],
    start: &'a [f32],
    end: &'a [f32],
    auto_start: &'a [u32],
    auto_end: &'a [u32],
    targets: &mut [f32],
) -> CFlexed
    ensures { FlexedFromC inner gap (lists base.now minimum.now maximum.now
        has_maximum.now edges.now grow.now shrink.now start.now
        end.now auto_start.now auto_end.now) result targets.old
        targets.new }
{
    let items = ItemLists {
        base,
        minimum,
        maximum,
        has_maximum,
        edges,
        grow,
        shrink,
        start,
        end,
        auto_start,
        auto_end,
    };
    flex_line_call::flex_line(inner, gap, items, targets).into()
}

// C passes each list by itself here too.
#[unsafe(no_mangle)]
pub extern "C" fn fratolivem_flex_lines<'a>(
    inner: f32,
    gap: f32,
    counts: &'a [u32],
    base: &'a [f32],
    minimum: &'a [f32],
    maximum: &'a [f32],
    has_maximum: &'a [u32],
    edges: &'a [f32],
    grow: &'a [f32],
    shrink: &'a [f32],
    start: &'a [f32],
    end: &'a [f32],
    auto_start: &'a [u32],
    auto_end: &'a [u32],
    targets: &mut [f32],
    free: &mut [i32],
    rounds: &mut [u32],
) -> CAnswer
    ensures { FlexedLinesFromC inner gap counts.now
        (lists base.now minimum.now maximum.now has_maximum.now
        edges.now grow.now shrink.now start.now end.now
        auto_start.now auto_end.now) result targets.old free.old
        rounds.old targets.new free.new rounds.new }
{
    let items = ItemLists {
        base,
        minimum,
        maximum,
        has_maximum,
        edges,
        grow,
        shrink,
        start,
        end,
        auto_start,
        auto_end,
    };
    flex_lines_call::flex_lines(inner, gap, counts, items, targets, free, rounds).into()
}
