// Checks 1 and 2, from the lengths of lists: lists of one length, and room in the lent ones.
ghost use Rattle.std.specs.Prelude.{◌≡◌, ◌≤◌, true};
ghost use Rattle.checks.specs.Shapes.{work_room, shape_of, longest, alike, roomy};

use crate::Refusal;

// Whether the two lists that balanced breaking works in are long enough for n items. No entry point: check 1 comes
// before.
pub fn has_work_room(n: usize, work: usize, sums: usize) -> bool
    requires { n ≤ 1024 }
    ensures { result ≡ work_room n work sums }
{
    n * n + 3 * n <= work && 3 * n <= sums
}

// Checks 1 and 2 of a call: its input lists have these lengths, and the lent ones that take n cells each have these. No
// entry point.
pub fn check_lists(lengths: &[usize], rooms: &[usize], n: usize) -> Result<(), Refusal>
    ensures { result ≡ shape_of lengths.now rooms.now n }
{
    crate::check_shape(
        longest(lengths),
        are_roomy(n, rooms) & are_alike(n, lengths),
    )
}

fn longest(lengths: &[usize]) -> usize
    ensures { result ≡ longest lengths.now }
{
    let mut most = 0;
    for &length in lengths {
        most = most.max(length);
    }
    most
}

fn are_alike(n: usize, lengths: &[usize]) -> bool
    ensures { result ≡ alike n lengths.now }
{
    let mut rest = true;
    for &length in lengths {
        rest = rest && length == n;
    }
    rest
}

fn are_roomy(n: usize, rooms: &[usize]) -> bool
    ensures { result ≡ roomy n rooms.now true }
{
    let mut rest = true;
    for &room in rooms {
        rest = rest && n <= room;
    }
    rest
}
