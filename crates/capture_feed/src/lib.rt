// Reading a capture byte by byte. What is kept between two bytes is a value, so a capture can come in bursts.
#![tactic(auto)]

ghost use Rattle.std.specs.Prelude.{◌≡◌, ◌+◌, ◌≤◌, ◌^◌, length};
ghost use Rattle.capture_feed.specs.Machine.{with_sizes, advanced, kept, byte_fed, fed, started, finished};
ghost use Rattle.capture_feed.specs.Machine.{ReaderReady};

use capture_format::{BrokenAt, Head, Parsed, Stage, parse};
use keywords::AvailableSpace;

// Where the reading of a capture stands between two bytes. It comes from `start` and `feed` alone. What holds of it is
// asked by `ReaderReady` and not kept by the type, since `fed_resumes` and `said` speak of any record of these fields.
#[derive(Clone, Copy)]
pub struct Reader {
    pub stage: Stage,
    // The offset where the record starts that is being read, or the one that broke.
    pub place: u64,
    // How many of its bytes have come, and these bytes: no heap, so no `Vec`.
    pub have: usize,
    pub pending: [u8; 12],
    // The record of kind 1, once it was read.
    pub head: Head,
    // How many items have been read, also those past the 64 that are kept.
    pub items: usize,
}

// What a capture says, once its last byte was fed: its head as it was written, and how many items it has.
#[derive(Clone, Copy)]
pub struct Captured {
    pub head: Head,
    pub items: usize,
}

fn keep(found: Parsed, item: usize, sizes: &mut [f32; 64])
    ensures { sizes.new ≡ kept found item sizes.old }
{
    if let Parsed::Item(size) = found {
        if item < 64 {
            sizes[item] = size;
        }
    }
}

impl Reader {
    pub fn start() -> Reader
        ensures { result ≡ started }
    {
        Reader {
            stage: Stage::First,
            place: 0,
            have: 0,
            pending: [0; 12],
            head: Head {
                limit: AvailableSpace::MaxContent,
                gap: 0.0,
                minimum: 0,
            },
            items: 0,
        }
    }

    fn advance(self, found: Parsed) -> Reader
        requires { (self.place ≤ 2 ^ 63) × (self.have ≤ 12) × (self.items ≤ self.place) }
        ensures { result ≡ advanced found self self.pending }
    {
        match found {
            Parsed::Partial => Reader {
                have: self.have + 1,
                ..self
            },
            Parsed::Broken => Reader {
                stage: Stage::Broken,
                have: 0,
                ..self
            },
            Parsed::Head(head) => Reader {
                stage: Stage::Items,
                place: self.place + 12,
                have: 0,
                head,
                ..self
            },
            Parsed::Item(_) => Reader {
                stage: Stage::Items,
                place: self.place + 5,
                have: 0,
                items: self.items + 1,
                ..self
            },
            Parsed::End => Reader {
                stage: Stage::Ended,
                place: self.place + 1,
                have: 0,
                ..self
            },
        }
    }

    #[tactic(auto, using(crate::proofs::Sound::within))]
    fn step(&mut self, byte: u8, sizes: &mut [f32; 64])
        requires { ReaderReady self.old 1 }
        ensures { with_sizes self.new sizes.new ≡ byte_fed (with_sizes self.old sizes.old) byte }
    {
        self.pending[self.have] = byte;
        let found = parse(self.stage, &self.pending[..self.have + 1]);
        keep(found, self.items, sizes);
        *self = self.advance(found);
    }

    // Takes the next bytes of a capture. What bursts they come in makes no difference. It asks for a reader that came
    // from `start` and `feed`, and is no entry point.
    pub fn feed(&mut self, burst: &[u8], sizes: &mut [f32; 64])
        requires { ReaderReady self.old (length burst.now) }
        ensures { with_sizes self.new sizes.new ≡ fed (with_sizes self.old sizes.old) burst.now }
    {
        for &byte in burst {
            self.step(byte, sizes);
        }
    }

    pub fn finish(self) -> Result<Captured, BrokenAt>
        ensures { result ≡ finished self }
    {
        match self.stage {
            Stage::Ended => Ok(Captured {
                head: self.head,
                items: self.items,
            }),
            Stage::First | Stage::Items | Stage::Broken => Err(BrokenAt(self.place)),
        }
    }
}
