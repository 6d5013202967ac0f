// Boundary cases of the break limit and of greedy breaking, one to a line: what they are given, and number and place,
// or lines and counts.
#![tactic(auto)]

use break_limit::Query;
use checks::{Done, Place, Refusal};
use keywords::AvailableSpace;
use std::io;

// Prints a refusal as the samples have it.
fn refused(rt: &impl Print, why: Refusal) -> io::Result<()> {
    let number = why.number();
    match why.place() {
        Place::Container => println!(rt; "answer {number} place container"),
        Place::At(i) => println!(rt; "answer {number} place {i}"),
    }
}

// A definite limit is told by how it compares with 100 px.
fn space(rt: &impl Print, limit: AvailableSpace) -> io::Result<()> {
    let told = match limit {
        AvailableSpace::Definite(x) if x == 100.0 => "100 px",
        AvailableSpace::Definite(x) if x < 100.0 => "below 100 px",
        AvailableSpace::Definite(_) => "above 100 px",
        AvailableSpace::MinContent => "min-content",
        AvailableSpace::MaxContent => "max-content",
    };
    println!(rt; "{told}")
}

fn limit(rt: &impl Print, name: &str, q: Query) -> io::Result<()> {
    print!(rt; "{name}: ")?;
    match break_limit::break_limit(q) {
        Ok(limit) => space(rt, limit),
        Err(why) => refused(rt, why),
    }
}

// A row whose main size is definite: the available space and the bounds alone decide.
const ROW: Query = Query {
    known_is_definite: true,
    main_is_definite: true,
    is_row: true,
    available: AvailableSpace::MinContent,
    minimum: None,
    maximum: None,
};

fn available(rt: &impl Print, name: &str, x: f32) -> io::Result<()> {
    let available = AvailableSpace::Definite(x);
    limit(rt, name, Query { available, ..ROW })
}

fn answered(rt: &impl Print, answer: Result<Done, Refusal>) -> io::Result<()> {
    match answer {
        Ok(done) => println!(rt; "lines {}", done.lines),
        Err(why) => refused(rt, why),
    }
}

// Three items under a limit of 100 px and a gap of 10.
fn three(rt: &impl Print, name: &str, sizes: [f32; 3]) -> io::Result<()> {
    print!(rt; "{name}: ")?;
    let mut counts = [7u32; 3];
    match break_greedy::greedy(AvailableSpace::Definite(100.0), 10.0, &sizes, &mut counts) {
        Ok(done) => {
            let [a, b, c] = counts;
            println!(rt; "lines {} counts {a} {b} {c}", done.lines)
        }
        Err(why) => refused(rt, why),
    }
}

// Spaces that are told by their number.
const DEFINITE: [(&str, f32); 12] = [
    ("100", 100.0),
    ("-0.0", -0.0),
    ("NaN", f32::NAN),
    ("infinity", f32::INFINITY),
    ("-infinity", -f32::INFINITY),
    ("the least subnormal", 1e-45),
    ("3.4e38", 3.4e38),
    ("1/64", 0.015625),
    ("1/128", 0.0078125),
    ("262144", 262144.0),
    ("-262144", -262144.0),
    ("the float above 262144", 262144.03125),
];

// Spaces, minima and maxima.
const BOUNDED: [(&str, AvailableSpace, Option<f32>, Option<f32>); 5] = [
    (
        "minimum -1/64",
        AvailableSpace::MinContent,
        Some(-0.015625),
        None,
    ),
    ("minimum -0.0", AvailableSpace::MinContent, Some(-0.0), None),
    (
        "maximum 100 under max-content",
        AvailableSpace::MaxContent,
        None,
        Some(100.0),
    ),
    (
        "minimum off the grid, maximum NaN",
        AvailableSpace::MinContent,
        Some(0.01),
        Some(f32::NAN),
    ),
    (
        "maximum too large, available off the grid",
        AvailableSpace::Definite(0.01),
        None,
        Some(300000.0),
    ),
];

fn limits(rt: &impl Print) -> io::Result<()> {
    for (name, x) in DEFINITE {
        available(rt, name, x)?;
    }
    for (name, available, minimum, maximum) in BOUNDED {
        let query = Query {
            available,
            minimum,
            maximum,
            ..ROW
        };
        limit(rt, name, query)?;
    }
    Ok(())
}

fn rules(rt: &impl Print) -> io::Result<()> {
    let q = Query {
        main_is_definite: false,
        available: AvailableSpace::Definite(200.0),
        maximum: Some(100.0),
        ..ROW
    };
    limit(rt, "200 lowered to the maximum", q)?;
    let definite = Query {
        main_is_definite: true,
        ..q
    };
    limit(rt, "200 where the main size is definite", definite)?;
    let unknown = Query {
        known_is_definite: false,
        ..q
    };
    limit(rt, "known main size not definite", unknown)?;
    let column = Query {
        is_row: false,
        maximum: None,
        ..q
    };
    limit(rt, "a column", column)
}

fn greedies(rt: &impl Print) -> io::Result<()> {
    for (name, sizes) in [
        ("70,0,20", [70.0, 0.0, 20.0]),
        ("45,45,1", [45.0, 45.0, 1.0]),
        ("150,-0.0,-30", [150.0, -0.0, -30.0]),
        ("NaN at 0", [f32::NAN, 0.01, 0.01]),
        ("NaN at 2, off the grid at 0", [0.01, 5.0, f32::NAN]),
        ("too large at 0, off the grid at 1", [300000.0, 0.01, 5.0]),
        ("too large at 1", [5.0, -300000.0, 5.0]),
        ("sum at the bound", [262114.0, 0.0, 0.0]),
        ("sum 1/64 above it", [262114.015625, 0.0, 0.0]),
    ] {
        three(rt, name, sizes)?;
    }
    Ok(())
}

fn lengths(rt: &impl Print) -> io::Result<()> {
    let mut counts = [7u32; 1024];
    let many = [0.5f32; 1024];
    let more = [f32::NAN; 1025];
    for (name, limit, sizes, cells) in [
        ("no items", AvailableSpace::MaxContent, &many[..0], 1),
        ("1024 items", AvailableSpace::MinContent, &many[..], 1024),
        (
            "1024 items, 1023 cells",
            AvailableSpace::MinContent,
            &many[..],
            1023,
        ),
        (
            "1025 items, NaN, no cell",
            AvailableSpace::MinContent,
            &more[..],
            0,
        ),
    ] {
        print!(rt; "{name}: ")?;
        let answer = break_greedy::greedy(limit, 0.0, sizes, &mut counts[..cells]);
        answered(rt, answer)?;
    }
    Ok(())
}

fn main(rt: HostRuntime) -> io::Result<()> {
    limits(&rt)?;
    rules(&rt)?;
    greedies(&rt)?;
    lengths(&rt)
}
