// Captures (document 01, "Records for the program"): from the bytes, or the numbers that were read, to the answer.
#![tactic(auto)]

ghost use Rattle.std.specs.Prelude.{◌≡◌, ◌≤◌, length, take, ltb};
ghost use Rattle.capture_format.specs.Reading.{reading, as_read};
ghost use Rattle.capture_feed.specs.Machine.{finished};
ghost use Rattle.capture.specs.Answer.{capture_verdict, ByVerdict, ByCount, CaptureAnswered};
ghost use Rattle.capture.specs.Parts.{AnsweredTo};

use capture_feed::Reader;
use capture_format::{Head, as_read};
use capture_text::Fault;
use checks::Refusal;

// Balanced breaking, with the room to work in.
fn break_items(head: Head, sizes: &[f32], counts: &mut [u32]) -> Result<u32, Fault>
    requires { (length sizes.now ≤ 64) × (length counts.old ≡ 64) }
    ensures { ByVerdict (capture_verdict head sizes.now) head sizes.now
        counts.old result counts.new }
{
    let mut work = [0u32; 4288];
    let mut sums = [0.0f64; 192];
    let done = balance::balanced(
        head.limit,
        head.gap,
        head.minimum,
        sizes,
        counts,
        &mut work,
        &mut sums,
    )?;
    Ok(done.lines)
}

// The sizes are the first of `items`, as many as are kept.
fn answer_items(head: Head, items: usize, sizes: &[f32], counts: &mut [u32]) -> Result<u32, Fault>
    requires { (length sizes.now ≡ 64) × (length counts.old ≡ 64) }
    ensures { ByCount (ltb 64 items) head (take items sizes.now) counts.old result
        counts.new }
{
    if 64 < items {
        return Err(Refusal::TooManyItems.into());
    }
    break_items(head, &sizes[..items], counts)
}

// The answer once the last byte was fed. The reader has the head as it was written: here it gets its meaning. For
// programs that feed a capture in parts: it asks for the lists that they feed, and is no entry point.
pub fn answer(reader: Reader, sizes: &[f32], counts: &mut [u32]) -> Result<u32, Fault>
    requires { (length sizes.now ≡ 64) × (length counts.old ≡ 64) }
    ensures { AnsweredTo (finished reader) sizes.now counts.old result counts.new }
{
    let said = reader.finish()?;
    answer_items(as_read(said.head), said.items, sizes, counts)
}

// Reads a whole capture to its answer. Nothing is asked of the bytes.
pub fn read(bytes: &[u8], counts: &mut [u32; 64]) -> Result<u32, Fault>
    ensures capture_answered { CaptureAnswered (reading as_read bytes.now) counts.old result
        counts.new }
    ensures counts_len { length counts.new ≡ 64 }
{
    let mut sizes = [0.0f32; 64];
    let mut reader = Reader::start();
    reader.feed(bytes, &mut sizes);
    answer(reader, &sizes, counts)
}
