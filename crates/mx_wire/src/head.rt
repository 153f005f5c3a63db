ghost use Rattle.std.specs.Prelude.{◌≡◌, ◌+◌, ◌*◌, ◌++◌, ◌∷◌, ◌<◌, ◌≤◌, [], List, ℕ, length, map};
ghost use Rattle.std.specs.Prelude.{take, codes, option_map, All};
ghost use Rattle.std.specs.List.{list_all};
ghost use Rattle.std.specs.Char.{is_ascii_digit};
ghost use Rattle.std.specs.Str.{str_eq_ignore_ascii_case};
ghost use Rattle.httparse.specs.Spans.{IsHeaderWithin, header_bytes, IsWithin, span_bytes};
ghost use Rattle.mx_wire.specs.Heads.{HasMeaning, meaning_by, framing_by, framing_of, once};
ghost use Rattle.mx_wire.specs.Heads.{once_more, values_of, short_number};
ghost use Rattle.mx_wire.specs.Seen.{seen_of, IsSeenWithin};

use crate::number::number;
use httparse::Status;
use httparse::spans::{EMPTY_HEADER_SPAN, HeaderSpan, Span, parse_response};

/// The most fields that a head may have.
const MOST_FIELDS: usize = 64;

/// How long the body of a reply is.
#[derive(Clone, Copy, Debug, PartialEq, Eq)]
pub(crate) enum Framing {
    /// There is none.
    Nothing,
    /// So many bytes.
    Counted(u64),
    /// In chunks that tell their sizes.
    Chunked,
    /// Up to the end of the link.
    ToEnd,
}

/// What a block at the place of a head means.
#[derive(Clone, Copy, Debug, PartialEq, Eq)]
pub(crate) enum Meaning {
    /// The bytes are no reply.
    Refuse,
    /// Another head comes.
    Interim,
    /// A reply of this status, whose body comes.
    Final(u16, Framing),
}

/// How often a field was seen, with its value where that was once.
#[derive(Clone, Copy)]
pub(crate) enum Seen {
    Never,
    Once(Span),
    Repeatedly,
}

/// What a block means: RFC 9112, 'Message Body', in our profile.
pub(crate) fn read_meaning(block: &[u8]) -> Meaning
    ensures { HasMeaning block.now result }
{
    let mut headers = [EMPTY_HEADER_SPAN; MOST_FIELDS];
    match parse_response(block, &mut headers) {
        Ok(Status::Complete(head)) if head.len == block.len() => {
            meaning_by(head.code, framing_told(block, &headers[..head.headers]))
        }
        _ => Meaning::Refuse,
    }
}

/// What a head of this status and framing means.
fn meaning_by(status: u16, framing: Option<Framing>) -> Meaning
    ensures { result ≡ meaning_by status framing }
{
    match (status, framing) {
        (..100 | 600.., _) => Meaning::Refuse,
        (..200, _) => Meaning::Interim,
        (204 | 304, _) => Meaning::Final(status, Framing::Nothing),
        (_, Some(framing)) => Meaning::Final(status, framing),
        (_, None) => Meaning::Refuse,
    }
}

/// The framing that these fields of a block tell.
fn framing_told(block: &[u8], headers: &[HeaderSpan]) -> Option<Framing>
    requires { All (IsHeaderWithin (length block.now)) headers.now }
    ensures { result ≡ framing_of (map (header_bytes block.now) headers.now) }
{
    let mut coding = Seen::Never;
    let mut count = Seen::Never;
    for header in headers {
        coding = with_header(coding, block, *header, b"transfer-encoding");
        count = with_header(count, block, *header, b"content-length");
    }
    framing_by(block, coding, count)
}

/// How often the field of this name was seen behind one more field.
fn with_header(seen: Seen, block: &[u8], header: HeaderSpan, name: &[u8]) -> Seen
    requires header { IsHeaderWithin (length block.now) header }
    requires seen { IsSeenWithin (length block.now) seen }
    ensures seen { (fields : List (List ℕ × List ℕ))
        → seen_of block.now seen ≡ once (values_of name.now fields)
        → seen_of block.now result
        ≡ once (values_of name.now (fields ++ header_bytes block.now header ∷ [])) }
    ensures within { IsSeenWithin (length block.now) result }
{
    if is_name(header.name.of(block), name) {
        once_more(seen, header.value)
    } else {
        seen
    }
}

/// Seen once more, with this value.
fn once_more(seen: Seen, value: Span) -> Seen
    ensures seen { (block : List ℕ)
        → seen_of block result ≡ once_more (seen_of block seen) (span_bytes block value) }
    ensures within { (n : ℕ) → IsSeenWithin n seen → IsWithin n value → IsSeenWithin n result }
{
    match seen {
        Seen::Never => Seen::Once(value),
        Seen::Once(_) | Seen::Repeatedly => Seen::Repeatedly,
    }
}

/// Whether the texts are the same without regard to ASCII case.
#[tactic(auto, using(crate::proofs::Fields::same_names))]
fn is_name(text: &[u8], name: &[u8]) -> bool
    ensures { result ≡ str_eq_ignore_ascii_case text.now name.now }
{
    text.eq_ignore_ascii_case(name)
}

/// The framing that the fields Transfer-Encoding and Content-Length tell.
fn framing_by(block: &[u8], coding: Seen, count: Seen) -> Option<Framing>
    requires coding { IsSeenWithin (length block.now) coding }
    requires count { IsSeenWithin (length block.now) count }
    ensures { result ≡ framing_by (seen_of block.now coding) (seen_of block.now count) }
{
    match (coding, count) {
        (Seen::Never, Seen::Never) => Some(Framing::ToEnd),
        (Seen::Once(coding), Seen::Never) if is_name(coding.of(block), b"chunked") => {
            Some(Framing::Chunked)
        }
        (Seen::Never, Seen::Once(count)) => counted(count.of(block)),
        _ => None,
    }
}

/// The framing by this Content-Length.
fn counted(text: &[u8]) -> Option<Framing>
    ensures { result ≡ option_map Framing.Counted (short_number text.now) }
{
    match short_number(text) {
        Some(count) => Some(Framing::Counted(count)),
        None => None,
    }
}

/// Whether each byte is a decimal digit.
fn are_digits(text: &[u8]) -> bool
    ensures { result ≡ list_all is_ascii_digit text.now }
{
    text.iter().all(|byte| byte.is_ascii_digit())
}

/// The number that 1 to 10 digits give.
fn short_number(text: &[u8]) -> Option<u64>
    ensures { result ≡ short_number text.now }
{
    if text.is_empty() || text.len() > 10 || !are_digits(text) {
        return None;
    }
    Some(number(text))
}
