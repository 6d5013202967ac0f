// Whether the numbers of a list are all fine. Each loop goes to the list's end and has no branch inside, so that the
// compiler takes several numbers at a time. No entry points.
ghost use Rattle.std.specs.Prelude.{◌≡◌, not, ◌||◌, eqb, leb, length, get_or};
ghost use Rattle.std.specs.Float.{nan};
ghost use Rattle.checks.specs.Domain.{float};
ghost use Rattle.checks_number.specs.Bounds.{fine};
ghost use Rattle.checks_list.specs.Every.{every};

use checks::Kind;
use checks_number::is_fine;

pub fn are_fine(kind: Kind, xs: &[f32]) -> bool
    ensures { result ≡ every (λ i. fine (float kind (get_or xs.now i nan))) (length xs.now) }
{
    let b = checks_number::bounds_of(kind);
    let mut ok = true;
    for &x in xs {
        ok = ok & is_fine(b, x);
    }
    ok
}

// Whether those are whose code is `taken`: the codes are C's, and a number that is not taken may be anything. No entry
// point.
pub fn are_fine_where<'a>(kind: Kind, xs: &'a [f32], codes: &'a [u32], taken: u32) -> bool
    requires { length codes.now ≡ length xs.now }
    ensures { result ≡ every (λ i. not (eqb (get_or codes.now i 0) taken) || fine
        (float kind (get_or xs.now i nan))) (length xs.now) }
{
    let b = checks_number::bounds_of(kind);
    let mut ok = true;
    for i in 0..xs.len() {
        ok = ok & ((codes[i] != taken) | is_fine(b, xs[i]));
    }
    ok
}

// Whether every code is one of 0 to `most`.
pub fn are_named(most: u32, codes: &[u32]) -> bool
    ensures { result ≡ every (λ i. leb (get_or codes.now i 0) most) (length codes.now) }
{
    let mut ok = true;
    for &code in codes {
        ok = ok & (code <= most);
    }
    ok
}
