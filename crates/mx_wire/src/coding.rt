ghost use Rattle.std.specs.Prelude.{◌≡◌, ◌<◌, ◌+◌, ◌*◌, List, ℕ, false};
ghost use Rattle.mx_wire.specs.Bodies.{hex_value, after_digits, after_size, chunked};
ghost use Rattle.mx_wire.specs.Coding.{sized, rest_of, Eats, Keeps, TakesByte, is_within, is_over};

use crate::line::InLine;
use crate::size::Size;

/// Where in a body one stands whose length is told.
#[derive(Clone, Copy, Debug, PartialEq, Eq)]
pub(crate) enum Coding {
    /// One byte comes, and so many more after it.
    Counted(u64),
    /// A size line of which these digits came.
    Digits(Size),
    /// In the extension of the line of this size.
    Extension(u32),
    /// Behind the CR of the line of this size.
    SizeFeed(u32),
    /// One byte of a chunk comes, and so many more after it.
    Chunk(u32),
    /// Behind a chunk.
    ChunkCr,
    /// Behind the CR after a chunk.
    ChunkFeed,
    /// At this place of a line of the trailer.
    Trailer(InLine),
    /// Behind the CR of the last line.
    LastFeed,
    /// All came.
    Complete,
    /// No further bytes make a body.
    Broken,
}

/// Whether the next byte is one of the body.
pub(crate) fn is_within(coding: Coding) -> bool
    ensures { result ≡ is_within coding }
{
    matches!(coding, Coding::Counted(_) | Coding::Chunk(_))
}

/// Whether nothing is read any more.
pub(crate) fn is_over(coding: Coding) -> bool
    ensures { result ≡ is_over coding }
{
    matches!(coding, Coding::Complete | Coding::Broken)
}

/// Where one stands behind the next byte, while something is read.
pub(crate) fn after_byte(coding: Coding, byte: u8) -> Coding
    requires { is_over coding ≡ false }
    ensures { TakesByte (is_within coding) coding byte result }
{
    match coding {
        Coding::Counted(more) => after_counted(more),
        Coding::Digits(size) => after_size_byte(size, byte),
        Coding::Extension(value) => after_extension(value, byte),
        Coding::SizeFeed(value) => after_size_feed(value, byte),
        Coding::Chunk(more) => after_chunk(more),
        Coding::ChunkCr => after_chunk_cr(byte),
        Coding::ChunkFeed => after_chunk_feed(byte),
        Coding::Trailer(place) => after_trailer(place, byte),
        Coding::LastFeed => after_last_feed(byte),
        Coding::Complete | Coding::Broken => unreachable!(),
    }
}

#[tactic(auto, unfolding(crate::specs::Bodies::counted))]
fn after_counted(more: u64) -> Coding
    ensures { (b : ℕ) → Keeps (Coding.Counted more) b result }
{
    if more == 0 {
        Coding::Complete
    } else {
        Coding::Counted(more - 1)
    }
}

#[tactic(auto, unfolding(crate::specs::Bodies::counted))]
fn after_chunk(more: u32) -> Coding
    ensures { (b : ℕ) → Keeps (Coding.Chunk more) b result }
{
    if more == 0 {
        Coding::ChunkCr
    } else {
        Coding::Chunk(more - 1)
    }
}

fn after_chunk_cr(byte: u8) -> Coding
    ensures { Eats Coding.ChunkCr byte result }
{
    if byte == b'\r' {
        Coding::ChunkFeed
    } else {
        Coding::Broken
    }
}

fn after_chunk_feed(byte: u8) -> Coding
    ensures { Eats Coding.ChunkFeed byte result }
{
    if byte == b'\n' {
        at_size_line()
    } else {
        Coding::Broken
    }
}

/// At the start of a size line.
#[tactic(auto, using(crate::proofs::Chunks::chunked_is))]
pub(crate) fn at_size_line() -> Coding
    ensures { (u : List ℕ) → chunked u ≡ rest_of result u }
{
    Coding::Digits(Size {
        digits: 0,
        value: 0,
    })
}

/// The value of a hexadecimal digit.
fn hex_value(byte: u8) -> Option<u32>
    ensures { result ≡ hex_value byte }
{
    match byte {
        b'0'..=b'9' => Some((byte - b'0') as u32),
        b'A'..=b'F' => Some((byte - b'A') as u32 + 10),
        b'a'..=b'f' => Some((byte - b'a') as u32 + 10),
        _ => None,
    }
}

#[tactic(auto, unfolding(crate::specs::Bodies::digits))]
fn after_size_byte(size: Size, byte: u8) -> Coding
    ensures { Eats (Coding.Digits size) byte result }
{
    match hex_value(byte) {
        Some(digit) if size.digits < 8 => Coding::Digits(one_more(size, digit)),
        Some(_) => Coding::Broken,
        None if size.digits == 0 => Coding::Broken,
        None => after_digits(size.value, byte),
    }
}

/// These digits and one more.
fn one_more(size: Size, digit: u32) -> Size
    requires few { size.digits < 8 }
    requires digit { digit < 16 }
    ensures digits { result.digits ≡ size.digits + 1 }
    ensures value { result.value ≡ 16 * size.value + digit }
{
    Size {
        digits: size.digits + 1,
        value: 16 * size.value + digit,
    }
}

fn after_digits(value: u32, byte: u8) -> Coding
    ensures { (u : List ℕ) → sized (after_digits value byte u) ≡ rest_of result u }
{
    match byte {
        b'\r' => Coding::SizeFeed(value),
        b';' | b' ' | b'\t' => Coding::Extension(value),
        _ => Coding::Broken,
    }
}

#[tactic(auto, unfolding(crate::specs::Bodies::extension))]
fn after_extension(value: u32, byte: u8) -> Coding
    ensures { Eats (Coding.Extension value) byte result }
{
    match byte {
        b'\r' => Coding::SizeFeed(value),
        b'\n' => Coding::Broken,
        _ => Coding::Extension(value),
    }
}

fn after_size_feed(value: u32, byte: u8) -> Coding
    ensures { Eats (Coding.SizeFeed value) byte result }
{
    if byte == b'\n' {
        after_size_line(value)
    } else {
        Coding::Broken
    }
}

fn after_size_line(value: u32) -> Coding
    ensures { (u : List ℕ) → after_size chunked value u ≡ rest_of result u }
{
    if value == 0 {
        Coding::Trailer(InLine::Start)
    } else {
        Coding::Chunk(value - 1)
    }
}

#[tactic(auto, unfolding(crate::specs::Bodies::trailer))]
fn after_trailer(place: InLine, byte: u8) -> Coding
    ensures { Eats (Coding.Trailer place) byte result }
{
    match (place, byte) {
        (InLine::Start, b'\r') => Coding::LastFeed,
        (InLine::Inside, b'\r') => Coding::Trailer(InLine::BehindCr),
        (InLine::BehindCr, b'\n') => Coding::Trailer(InLine::Start),
        (InLine::BehindCr, _) | (_, b'\n') => Coding::Broken,
        _ => Coding::Trailer(InLine::Inside),
    }
}

fn after_last_feed(byte: u8) -> Coding
    ensures { Eats Coding.LastFeed byte result }
{
    if byte == b'\n' {
        Coding::Complete
    } else {
        Coding::Broken
    }
}
