// The calls that size a line and place lines along the cross axis, for a host in C or C++ (include/fratolivem.h). Each
// is the call inside it, and takes any bits.
#![tactic(auto)]

ghost use Rattle.std.specs.Prelude.{◌≡◌};
ghost use Rattle.place_size.specs.CrossSize.{cross_lists};
ghost use Rattle.place_size_call.specs.SizeCall.{size_call};
ghost use Rattle.place_lines_call.specs.LinesCall.{lines_call};
ghost use Rattle.export_lines.specs.Sized.{c_line, c_aligned, lines_from_c};

use checks::Refusal;
use export_answer::CAnswer;
use place_checks::numbers::CrossNumbers;
use place_size::CrossLists;

// Number and place as in CAnswer; then a line's cross size, or the container's inner one. It is 0.0 on refusal.
#[repr(C)]
#[derive(Clone, Copy)]
pub struct CSized {
    pub number: u32,
    pub at: u32,
    pub place: u32,
    pub size: f32,
}

impl From<Result<f32, Refusal>> for CSized {
    ghost from_gives = { λ told sized. sized ≡ c_line told };

    fn from(told: Result<f32, Refusal>) -> CSized {
        match told {
            Ok(size) => CSized {
                number: 0,
                at: 0,
                place: 0,
                size,
            },
            Err(why) => {
                let told = CAnswer::from(why);
                CSized {
                    number: told.number,
                    at: told.at,
                    place: told.place,
                    size: 0.0,
                }
            }
        }
    }
}

// The cross size of one line. The container's gap is not read.
#[unsafe(no_mangle)]
pub extern "C" fn fratolivem_line_size<'a>(
    c: CrossNumbers,
    measured: &'a [f32],
    minimum: &'a [f32],
    maximum: &'a [f32],
    has_maximum: &'a [u32],
    edges: &'a [f32],
    start: &'a [f32],
    end: &'a [f32],
    auto_start: &'a [u32],
    auto_end: &'a [u32],
) -> CSized
    ensures { result ≡ c_line (size_call c (cross_lists measured.now minimum.now
        maximum.now
        has_maximum.now edges.now start.now end.now
        auto_start.now auto_end.now)) }
{
    let items = CrossLists {
        measured,
        minimum,
        maximum,
        capped: has_maximum,
        edges,
        start,
        end,
        auto_start,
        auto_end,
    };
    place_size_call::size_line(c, items).into()
}

// The lines of a container: their sizes stretched, their offsets, and the container's inner cross size. An item of its
// list is a line.
#[unsafe(no_mangle)]
pub extern "C" fn fratolivem_place_lines(
    c: CrossNumbers,
    align_content: u32,
    lines: &[f32],
    sizes: &mut [f32],
    offsets: &mut [f32],
) -> CSized
    ensures { c_aligned result sizes.new offsets.new
        ≡ lines_from_c (lines_call c align_content lines.now sizes.old offsets.old) }
{
    place_lines_call::place_lines(c, align_content, lines, sizes, offsets).into()
}
