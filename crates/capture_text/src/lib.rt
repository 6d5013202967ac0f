// An answer as the program prints it.
#![tactic(auto)]

ghost use Rattle.std.specs.Prelude.{◌≡◌, [], ◌∷◌, ◌+◌, ◌*◌, ◌≤◌, ◌<◌, length, take};
ghost use Rattle.capture_text.specs.Text.{decimal_to, decimal, spaced, place_text, head_text, refusal_text};
ghost use Rattle.capture_text.specs.Text.{accepted, title_text, lines_text, text_of};
ghost use Rattle.capture_text.specs.Parts.{Put, Puts};
ghost use Rattle.checks.specs.Domain.{where_of, at_item, refused_as, refusal_of};
ghost use Rattle.capture_text.specs.declared.Fault.TheVariants.{Refused, Broken};

use capture_format::BrokenAt;
use checks::{Place, Refusal};

// Why a capture has no lines. An answer to a capture is else how many lines it has, and their counts are in the list
// that was lent.
#[derive(Clone, Copy)]
pub enum Fault {
    Refused(Refusal),
    // Answer 7, and its byte offset.
    Broken(u64),
}

impl From<Refusal> for Fault {
    ghost from_gives = { λ why fault. fault ≡ Refused why };

    fn from(why: Refusal) -> Fault {
        Fault::Refused(why)
    }
}

impl From<BrokenAt> for Fault {
    ghost from_gives = { λ at fault. fault ≡ Broken at.0 };

    fn from(at: BrokenAt) -> Fault {
        Fault::Broken(at.0)
    }
}

// A text that is being written, from the front of the lent cells on: no heap, so no `String`. It is put together by
// hand, since `write!` may answer an error, and `spell` promises its text for every answer.
#[derive(Drop)]
struct Text<'a> {
    cells: &'a mut [u8],
    length: usize,
}

impl<'a> Text<'a> {
    fn put_byte(&mut self, byte: u8)
        requires { self.old.length < length self.old.cells.now }
        ensures { Puts (byte ∷ []) self.old self.new }
    {
        self.cells[self.length] = byte;
        self.length += 1;
    }

    fn put(&mut self, word: &[u8])
        requires { self.old.length + length word.now ≤ length self.old.cells.now }
        ensures { Puts word.now self.old self.new }
    {
        let next = self.length + word.len();
        self.cells[self.length..next].copy_from_slice(word);
        self.length = next;
    }

    // A number in decimal, in at most so many places.
    fn put_places(&mut self, places: usize, n: u64)
        requires { self.old.length + places ≤ length self.old.cells.now }
        ensures { Puts (decimal_to places n) self.old self.new }
    {
        if places == 0 {
            return;
        }
        if n < 10 {
            return self.put_byte(b'0' + n as u8);
        }
        self.put_places(places - 1, n / 10);
        self.put_byte(b'0' + (n % 10) as u8);
    }

    // Every u64 has at most 20 digits.
    fn put_number(&mut self, n: u64)
        requires { self.old.length + 20 ≤ length self.old.cells.now }
        ensures { Puts (decimal n) self.old self.new }
    {
        self.put_places(20, n);
    }

    fn put_count(&mut self, n: u32)
        requires { self.old.length + 21 ≤ length self.old.cells.now }
        ensures { Puts (32 ∷ decimal n) self.old self.new }
    {
        self.put_byte(b' ');
        self.put_number(u64::from(n));
    }

    fn put_counts(&mut self, counts: &[u32])
        requires { self.old.length + 21 * length counts.now ≤ length self.old.cells.now }
        ensures { Puts (spaced counts.now) self.old self.new }
    {
        for &n in counts {
            self.put_count(n);
        }
    }

    // The first n counts, or as many as there are.
    fn put_first(&mut self, n: usize, counts: &[u32])
        requires { self.old.length + 21 * length counts.now ≤ length self.old.cells.now }
        ensures { Puts (spaced (take n counts.now)) self.old self.new }
    {
        self.put_counts(&counts[..n.min(counts.len())]);
    }

    fn put_place(&mut self, place: Place)
        requires { self.old.length + 20 ≤ length self.old.cells.now }
        ensures { Puts (place_text (where_of place)) self.old self.new }
    {
        match place {
            Place::Container => self.put(b"container"),
            Place::At(i) => self.put_number(u64::from(i)),
        }
    }

    // The beginning of a refusal's line. The number is a `u32`, since 7 is no `Refusal`'s.
    fn put_head(&mut self, number: u32)
        requires { (number < 8) × (self.old.length + 15 ≤ length self.old.cells.now) }
        ensures { Puts (head_text number) self.old self.new }
    {
        self.put(b"answer ");
        self.put_byte(b'0' + number as u8);
        self.put(b" place ");
    }

    #[tactic(auto, using(crate::proofs::Puts::place_short, crate::proofs::Puts::number_few))]
    fn put_refused(&mut self, why: Refusal)
        requires { self.old.length + 36 ≤ length self.old.cells.now }
        ensures { Puts (refusal_text (refusal_of why)) self.old self.new }
    {
        self.put_head(why.number());
        self.put_place(why.place());
        self.put_byte(b'\n');
    }

    #[tactic(auto, using(crate::proofs::Puts::places))]
    fn put_broken(&mut self, offset: u64)
        requires { self.old.length + 36 ≤ length self.old.cells.now }
        ensures { Puts (refusal_text (refused_as 7 (at_item offset))) self.old self.new }
    {
        self.put_head(7);
        self.put_number(offset);
        self.put_byte(b'\n');
    }

    // Two lines, and the first word of the third.
    #[tactic(auto, using(crate::proofs::Puts::places))]
    fn put_title(&mut self, lines: u32)
        requires { self.old.length + 42 ≤ length self.old.cells.now }
        ensures { Puts (title_text (accepted lines)) self.old self.new }
    {
        self.put(b"answer 0\nlines ");
        self.put_number(u64::from(lines));
        self.put(b"\ncounts");
    }

    #[tactic(auto, using(crate::proofs::Puts::title_short, crate::proofs::Puts::spaced_short))]
    fn put_lines(&mut self, lines: u32, counts: &[u32])
        requires { self.old.length + (43 + 21 * length counts.now) ≤ length self.old.cells.now }
        ensures { Puts (lines_text (accepted lines) counts.now) self.old self.new }
    {
        self.put_title(lines);
        self.put_first(lines as usize, counts);
        self.put_byte(b'\n');
    }

    fn put_reply(&mut self, reply: Result<u32, Fault>, counts: &[u32])
        requires { self.old.length + (43 + 21 * length counts.now) ≤ length self.old.cells.now }
        ensures { Puts (text_of reply counts.now) self.old self.new }
    {
        match reply {
            Ok(lines) => self.put_lines(lines, counts),
            Err(Fault::Refused(why)) => self.put_refused(why),
            Err(Fault::Broken(offset)) => self.put_broken(offset),
        }
    }
}

// Writes an answer and answers how long it is. For programs to print: it asks for room, and is no entry point.
pub fn spell(reply: Result<u32, Fault>, counts: &[u32], out: &mut [u8]) -> usize
    requires { 43 + 21 * length counts.now ≤ length out.old }
    ensures { Put (text_of reply counts.now) out.old out.new 0 result }
{
    let mut text = Text {
        cells: out,
        length: 0,
    };
    text.put_reply(reply, counts);
    text.length
}
