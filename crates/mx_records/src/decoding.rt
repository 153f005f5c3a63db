//! The entry of a payload, read.

ghost use Rattle.std.specs.Prelude.{◌≡◌, ◌≢◌, ◌≤◌, ◌↔◌, ◌∷◌, ◌++◌, length, Ok, IfErr, IfOk, IfSome};
ghost use Rattle.std.specs.Prelude.{IsTrue, MatchOption};
ghost use Rattle.mx_json.specs.Gives.{Gives};
ghost use Rattle.mx_records.specs.declared.entry.Entry.{Entry};
ghost use Rattle.mx_records.specs.declared.entry.Outcome.{Outcome};
ghost use Rattle.mx_records.specs.Entries.{eight_bytes, input_spelled, input_tag, payload_of};
ghost use Rattle.mx_records.specs.Entries.{IsFaultIn, IsPayloadOf};
ghost use Rattle.mx_records.specs.Normal.{IsNormal};

use crate::encoding::{GAVE_UP_TAG, INPUT_TAG, PUSHED_TAG, REJECTED_TAG, encode_input_into};
use crate::entry::{Entry, Outcome};
use crate::entry_error::EntryError;
use crate::input::Input;
use crate::input_error::InputError;
use mx_json::{Json, JsonError, OutOfMemory};
use std::alloc::Global;

/// How deep the object that stands for an input may be nested.
const DEEPEST_OBJECT: u32 = 127;

/// The entry whose one payload these bytes are.
///
/// # Errors
///
/// `BadEntry` exactly where they are the payload of no entry, with the offset of the fault: 0 where
/// there are no bytes or the tag isn't 1 to 4, else 1. `OutOfMemory` where the allocator has none.
pub fn decode(alloc: Global, payload: &[u8]) -> Result<Entry, EntryError>
    ensures payload { IfOk result (IsPayloadOf payload.now) }
    ensures one { (entry : Entry) → IsPayloadOf payload.now entry
        → Gives EntryError.OutOfMemory result (Ok entry) }
    ensures fault { IfErr result (IsFaultIn payload.now) }
{
    match payload.split_first() {
        Some((tag, rest)) => decode_tagged(alloc, payload, *tag, rest),
        None => Err(EntryError::BadEntry(0)),
    }
}

/// The entry of a payload with this tag.
fn decode_tagged(alloc: Global, payload: &[u8], tag: u8, rest: &[u8]) -> Result<Entry, EntryError>
    requires { payload.now ≡ tag ∷ rest.now }
    ensures payload { IfOk result (IsPayloadOf payload.now) }
    ensures one { (entry : Entry) → IsPayloadOf payload.now entry
        → Gives EntryError.OutOfMemory result (Ok entry) }
    ensures fault { IfErr result (IsFaultIn payload.now) }
{
    if tag == INPUT_TAG {
        return decode_input(alloc, payload, rest);
    }
    if tag < PUSHED_TAG || tag > REJECTED_TAG {
        return Err(EntryError::BadEntry(0));
    }
    match decode_outcome(tag, rest) {
        Some(outcome) => Ok(Entry::Outcome(outcome)),
        None => Err(EntryError::BadEntry(1)),
    }
}

/// The entry that is an input, from its text.
fn decode_input(alloc: Global, payload: &[u8], text: &[u8]) -> Result<Entry, EntryError>
    requires { payload.now ≡ input_tag ∷ text.now }
    ensures payload { IfOk result (IsPayloadOf payload.now) }
    ensures one { (entry : Entry) → IsPayloadOf payload.now entry
        → Gives EntryError.OutOfMemory result (Ok entry) }
    ensures fault { IfErr result (IsFaultIn payload.now) }
{
    let Some(input) = read_input(alloc, text)? else {
        return Err(EntryError::BadEntry(1));
    };
    if is_payload(alloc, payload, &input)? {
        Ok(Entry::Input(input))
    } else {
        Err(EntryError::BadEntry(1))
    }
}

/// The input that a text spells, if it spells one.
#[tactic(auto, unfolding(crate::specs::Entries::input_spelled))]
fn read_input(alloc: Global, text: &[u8]) -> Result<Option<Input>, OutOfMemory>
    ensures input { IfOk result (λ input. input ≡ input_spelled text.now) }
    ensures normal { IfOk result (λ input. IfSome input IsNormal) }
{
    let object = match Json::from_text(alloc, text, DEEPEST_OBJECT) {
        Ok(object) => object,
        Err(JsonError::BadJson) => return Ok(None),
        Err(JsonError::NotWhole) => return Ok(None),
        Err(JsonError::OutOfMemory) => return Err(OutOfMemory),
    };
    match Input::from_json(alloc, object) {
        Ok(input) => Ok(Some(input)),
        Err(InputError::BadField(_)) => Ok(None),
        Err(InputError::OutOfMemory) => Err(OutOfMemory),
    }
}

/// Whether the bytes are the payload of this input.
fn is_payload(alloc: Global, bytes: &[u8], input: &Input) -> Result<bool, OutOfMemory>
    requires { IsNormal input.now }
    ensures { IfOk result (λ is. IsTrue is ↔ (bytes.now ≡ payload_of (Entry.Input input.now))) }
{
    let mut payload = Vec::new(alloc);
    encode_input_into(alloc, input, &mut payload)?;
    Ok(payload.as_slice() == bytes)
}

/// The outcome of a tag and its numbers.
fn decode_outcome(tag: u8, numbers: &[u8]) -> Option<Outcome>
    requires low { 2 ≤ tag }
    requires high { tag ≤ 4 }
    ensures { MatchOption result
        ((outcome : Outcome) → tag ∷ numbers.now ≢ payload_of (Entry.Outcome outcome))
        (λ outcome. tag ∷ numbers.now ≡ payload_of (Entry.Outcome outcome)) }
{
    if numbers.len() != 16 {
        return None;
    }
    let (pusher, position) = numbers.split_at(8);
    Some(outcome_of(tag, number_of(pusher), number_of(position)))
}

/// The outcome that a tag says of a pusher and a position.
#[tactic(auto, unfolding(crate::specs::Entries::payload_of))]
fn outcome_of(tag: u8, pusher: u64, position: u64) -> Outcome
    requires low { 2 ≤ tag }
    requires high { tag ≤ 4 }
    ensures { payload_of (Entry.Outcome result) ≡ tag ∷ eight_bytes pusher ++ eight_bytes position }
{
    match tag {
        PUSHED_TAG => Outcome::Pushed { pusher, position },
        GAVE_UP_TAG => Outcome::GaveUp { pusher, position },
        _ => Outcome::Rejected { pusher, position },
    }
}

/// The number that eight bytes show, the lowest first.
fn number_of(bytes: &[u8]) -> u64
    requires { length bytes.now ≡ 8 }
    ensures { eight_bytes result ≡ bytes.now }
{
    u64::from_le_bytes([
        bytes[0], bytes[1], bytes[2], bytes[3], bytes[4], bytes[5], bytes[6], bytes[7],
    ])
}
