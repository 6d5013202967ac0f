// The program: a capture on standard input, its answer on standard output.
#![tactic(auto)]

ghost use Rattle.capture_feed.specs.Machine.{ReaderReady};
ghost use Rattle.capture_program.specs.Turned.{Turned};

use capture_feed::Reader;
use capture_text::Fault;
use std::io;
use std::io::Read;

// A proved loop has to end, and nothing says that the input does. So the loop takes at most so many turns, a number
// that no run uses up.
const MOST_TURNS: u64 = 0x8000_0000_0000;

// Reads once, feeds what came and answers how many bytes that were. None are the end of the input, or a read that
// failed.
fn read_some(input: &mut impl Read, reader: &mut Reader, sizes: &mut [f32; 64]) -> usize
    requires { ReaderReady reader.old 65536 }
    ensures { Turned reader.old sizes.old result reader.new sizes.new }
{
    let mut buffer = [0u8; 65536];
    let n = input.read(&mut buffer).unwrap_or(0);
    reader.feed(&buffer[..n], sizes);
    n
}

fn print(rt: &impl Print, reply: Result<u32, Fault>, counts: &[u32; 64]) -> io::Result<()> {
    let mut text = [0u8; 2048];
    let n = capture_text::spell(reply, counts, &mut text);
    rt.write_all(&text[..n])
}

fn main(rt: HostRuntime) -> io::Result<()> {
    let mut input = rt.stdin();
    let mut sizes = [0.0f32; 64];
    let mut counts = [0u32; 64];
    let mut reader = Reader::start();
    for _ in 0..MOST_TURNS {
        if read_some(&mut input, &mut reader, &mut sizes) == 0 {
            break;
        }
    }
    let reply = capture::answer(reader, &sizes, &mut counts);
    print(&rt, reply, &counts)
}
