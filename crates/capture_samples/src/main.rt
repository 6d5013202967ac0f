// Captures that reach every answer, each with its name: the bytes are written out, and the answer is as the program
// prints it.
#![tactic(auto)]

ghost use Rattle.std.specs.Prelude.{◌≤◌};

use std::io;

#[derive(Clone, Copy)]
struct Sample<'a> {
    name: &'a str,
    bytes: &'a [u8],
}

const ACCEPTED: [Sample; 3] = [
    Sample {
        name: "the paper's first case",
        bytes: b"\x01\x00\x00\x00\xc8\x42\x00\x00\x20\x41\x01\x00\x02\x00\x00\x8c\x42\
                \x02\x00\x00\x00\x00\x02\x00\x00\xa0\x41\x03",
    },
    Sample {
        name: "no items",
        bytes: b"\x01\x00\x00\x00\xc8\x42\x00\x00\x00\x00\x01\x00\x03",
    },
    Sample {
        name: "an old capture with min-content, whose limit field and minimum are not read",
        bytes: b"\x01\x01\x00\x00\xc0\x7f\x00\x00\x00\x41\x01\x00\x02\x00\x00\xa0\x40\x02\x00\x00\xc0\x40\x03",
    },
];

const REFUSED: [Sample; 7] = [
    Sample {
        name: "a gap that is no number",
        bytes: b"\x01\x00\x00\x00\xc8\x42\x01\x00\xc0\x7f\x01\x00\x02\x00\x00\x80\x3f\x03",
    },
    Sample {
        name: "an infinite size",
        bytes: b"\x01\x00\x00\x00\xc8\x42\x00\x00\x00\x00\x01\x00\x02\x00\x00\x80\x3f\x02\x00\x00\x80\x7f\x03",
    },
    Sample {
        name: "a size off the grid",
        bytes: b"\x01\x00\x00\x00\xc8\x42\x00\x00\x00\x00\x01\x00\x02\x00\x00\x80\x3f\x02\x0a\xd7\x23\x3c\x03",
    },
    Sample {
        name: "a limit off the grid",
        bytes: b"\x01\x00\x0a\xd7\x23\x3c\x00\x00\x00\x00\x01\x00\x02\x00\x00\x80\x3f\x03",
    },
    Sample {
        name: "a gap below 0",
        bytes: b"\x01\x00\x00\x00\xc8\x42\x00\x00\x80\xbf\x01\x00\x02\x00\x00\x80\x3f\x03",
    },
    Sample {
        name: "a size out of range",
        bytes: b"\x01\x00\x00\x00\xc8\x42\x00\x00\x00\x00\x01\x00\x02\x00\x00\x80\x3f\
                \x02\x00\x00\x80\x3f\x02\x00\x7c\x92\x48\x03",
    },
    Sample {
        name: "a sum that is too large",
        bytes: b"\x01\x00\x00\x00\xc8\x42\x00\x00\x80\x3f\x01\x00\x02\x00\x00\x80\x48\x03",
    },
];

const BROKEN: [Sample; 10] = [
    Sample {
        name: "no bytes",
        bytes: b"",
    },
    Sample {
        name: "kind 1 cut after its kind",
        bytes: b"\x01",
    },
    Sample {
        name: "kind 1 cut in its body",
        bytes: b"\x01\x00\x00\x00",
    },
    Sample {
        name: "kind 2 cut",
        bytes: b"\x01\x00\x00\x00\xc8\x42\x00\x00\x00\x00\x01\x00\x02\x00\x00\x80\x3f\x02\x00\x00",
    },
    Sample {
        name: "no end",
        bytes: b"\x01\x00\x00\x00\xc8\x42\x00\x00\x00\x00\x01\x00\x02\x00\x00\x80\x3f",
    },
    Sample {
        name: "bytes after the end",
        bytes: b"\x01\x00\x00\x00\xc8\x42\x00\x00\x00\x00\x01\x00\x02\x00\x00\x80\x3f\x03\x03",
    },
    Sample {
        name: "a limit kind of 3",
        bytes: b"\x01\x03\x00\x00\x00\x00\x00\x00\x00\x00\x01\x00\x03",
    },
    Sample {
        name: "an item first",
        bytes: b"\x02\x00\x00\x00\x00\x03",
    },
    Sample {
        name: "kind 1 twice",
        bytes: b"\x01\x00\x00\x00\xc8\x42\x00\x00\x00\x00\x01\x00\x01\x00\x00\x00\x00\x00\x00\x00\x00\x00\x01\x00\x03",
    },
    Sample {
        name: "an unknown kind",
        bytes: b"\x01\x00\x00\x00\xc8\x42\x00\x00\x00\x00\x01\x00\x04\x03",
    },
];

fn show(rt: &impl Print, sample: Sample) -> io::Result<()> {
    let mut counts = [0u32; 64];
    let mut text = [0u8; 2048];
    let reply = capture::read(sample.bytes, &mut counts);
    let n = capture_text::spell(reply, &counts, &mut text);
    println!(rt; "{}:", sample.name)?;
    rt.write_all(&text[..n])
}

fn show_all(rt: &impl Print, samples: &[Sample]) -> io::Result<()> {
    for &sample in samples {
        show(rt, sample)?;
    }
    Ok(())
}

// Many items of size 0 under max-content, and then a record of the kind `last`.
fn show_many(rt: &impl Print, name: &str, items: usize, last: u8) -> io::Result<()>
    requires { items ≤ 65 }
{
    let mut bytes = [0u8; 338];
    bytes[0] = 1;
    bytes[1] = 2;
    for i in 0..items {
        bytes[12 + 5 * i] = 2;
    }
    bytes[12 + 5 * items] = last;
    show(
        rt,
        Sample {
            name,
            bytes: &bytes[..13 + 5 * items],
        },
    )
}

fn main(rt: HostRuntime) -> io::Result<()> {
    show_all(&rt, &ACCEPTED)?;
    show_many(&rt, "64 items", 64, 3)?;
    show_many(&rt, "65 items", 65, 3)?;
    show_all(&rt, &REFUSED)?;
    show_all(&rt, &BROKEN)?;
    show_many(&rt, "a fault behind 65 items", 65, 9)
}
