// The records of a capture (document 01, "Records for the program"): the one place that knows the format. `parse` asks
// for a byte: no entry point.
#![tactic(auto)]

ghost use Rattle.std.specs.Prelude.{◌≡◌, ◌+◌, ◌≤◌, ◌<◌, length};
ghost use Rattle.capture_format.specs.Format.{half_at, word, float_at, head_of, first_front, later_front};
ghost use Rattle.capture_format.specs.Reading.{one_each, as_read};
ghost use Rattle.capture_format.specs.Parts.{front};

use keywords::{AvailableSpace, space_of};
use std::num::f32_from_bits_with_nan;

// A record of kind 1: what the items are broken by.
#[derive(Clone, Copy)]
pub struct Head {
    pub limit: AvailableSpace,
    pub gap: f32,
    pub minimum: u32,
}

// A capture that breaks: the offset where the faulty record starts. A record that the capture's end cuts is faulty, and
// so is a missing one.
#[derive(Clone, Copy)]
pub struct BrokenAt(pub u64);

// Which records may stand next.
#[derive(Clone, Copy)]
pub enum Stage {
    First,
    Items,
    Ended,
    // A record broke: nothing can mend that.
    Broken,
}

// What some bytes are, which start where a record is due.
#[derive(Clone, Copy)]
pub enum Parsed {
    // The beginning of a record that may stand here.
    Partial,
    // No beginning of such a record.
    Broken,
    Head(Head),
    Item(f32),
    End,
}

fn half_at(bytes: &[u8], at: usize) -> u16
    requires { at + 2 ≤ length bytes.now }
    ensures { result ≡ half_at bytes.now at }
{
    u16::from_le_bytes([bytes[at], bytes[at + 1]])
}

fn word_at(bytes: &[u8], at: usize) -> u32
    requires { at + 4 ≤ length bytes.now }
    ensures { result ≡ word bytes.now at }
{
    u32::from_le_bytes([bytes[at], bytes[at + 1], bytes[at + 2], bytes[at + 3]])
}

// Every NaN reads as one, and all are one to the checks.
fn float_at(bytes: &[u8], at: usize) -> f32
    requires { at + 4 ≤ length bytes.now }
    ensures { result ≡ float_at bytes.now at }
{
    f32_from_bits_with_nan(word_at(bytes, at))
}

// A record of kind 1. It asks for its twelve bytes, which a `From` could not ask.
fn head_of(bytes: &[u8]) -> Head
    requires { 12 ≤ length bytes.now }
    ensures { result ≡ head_of bytes.now }
{
    Head {
        limit: space_of(u32::from(bytes[1]), float_at(bytes, 2)),
        gap: float_at(bytes, 6),
        minimum: u32::from(half_at(bytes, 10)),
    }
}

#[tactic(auto, unfolding(crate::specs::Format::first_front))]
fn parse_first(bytes: &[u8]) -> Parsed
    requires { 0 < length bytes.now }
    ensures { result ≡ first_front bytes.now }
{
    if bytes[0] != 1 {
        return Parsed::Broken;
    }
    if bytes.len() < 2 {
        return Parsed::Partial;
    }
    if 2 < bytes[1] {
        return Parsed::Broken;
    }
    if bytes.len() < 12 {
        return Parsed::Partial;
    }
    Parsed::Head(head_of(bytes))
}

#[tactic(auto, unfolding(crate::specs::Format::later_front))]
fn parse_later(bytes: &[u8]) -> Parsed
    requires { 0 < length bytes.now }
    ensures { result ≡ later_front bytes.now }
{
    match bytes[0] {
        2 => {
            if bytes.len() < 5 {
                return Parsed::Partial;
            }
            Parsed::Item(float_at(bytes, 1))
        }
        3 => Parsed::End,
        _ => Parsed::Broken,
    }
}

// What the bytes are that have come of a record. More bytes change neither a record nor a fault. No entry point.
pub fn parse(stage: Stage, bytes: &[u8]) -> Parsed
    requires { 0 < length bytes.now }
    ensures { result ≡ front stage bytes.now }
{
    match stage {
        Stage::First => parse_first(bytes),
        Stage::Items => parse_later(bytes),
        Stage::Ended | Stage::Broken => Parsed::Broken,
    }
}

// One item a line, since an accepted capture has fewer items than 65,535.
fn one_each(gap: f32) -> Head
    ensures { result ≡ one_each gap }
{
    Head {
        limit: AvailableSpace::MaxContent,
        gap,
        minimum: 65535,
    }
}

// What a head means (document 02, Two). Min-content is not written any more; old captures that hold it mean one item a
// line.
pub fn as_read(head: Head) -> Head
    ensures { result ≡ as_read head }
{
    match head.limit {
        AvailableSpace::MinContent => one_each(head.gap),
        AvailableSpace::MaxContent | AvailableSpace::Definite(_) => head,
    }
}
