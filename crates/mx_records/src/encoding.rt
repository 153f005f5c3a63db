//! The payload of an entry, written.

ghost use Rattle.std.specs.Prelude.{◌≡◌, true, ◌∷◌, ◌++◌, IfOk, OnErr, OnOk};
ghost use Rattle.mx_json.specs.Canonical.{canonical};
ghost use Rattle.mx_json.specs.Json.{is_valid};
ghost use Rattle.mx_records.specs.Entries.{eight_bytes, input_tag, payload_of, IsEntry};
ghost use Rattle.mx_records.specs.Normal.{IsNormal};

use crate::entry::{Entry, Outcome};
use crate::input::Input;
use crate::normal::{edit_value, pusher_value, receipt_value};
use mx_event::Event;
use mx_json::{Json, OutOfMemory};
use std::alloc::Global;

/// The tag of an input.
pub(crate) const INPUT_TAG: u8 = 1;

/// The tag of an event that was pushed.
pub(crate) const PUSHED_TAG: u8 = 2;

/// The tag of an event that was given up.
pub(crate) const GAVE_UP_TAG: u8 = 3;

/// The tag of a pushkey that was rejected.
pub(crate) const REJECTED_TAG: u8 = 4;

/// What stands before an event in its payload: the tag of an input, and the object up to the event.
const BEFORE_AN_EVENT: &[u8] = b"\x01{\"cmd\":\"event\",\"event\":";

/// Appends the payload of an entry: a tag, and the canonical text of the object that stands for an
/// input, or the numbers of an outcome. After an error `out` is as before.
///
/// # Errors
///
/// `OutOfMemory` where the allocator has none.
pub fn encode_into(alloc: Global, entry: &Entry, out: &mut Vec<u8>) -> Result<(), OutOfMemory>
    requires { IsEntry entry.now }
    ensures ok { OnOk result (out.new.items ≡ out.old.items ++ payload_of entry.now) }
    ensures err { OnErr result (out.new.items ≡ out.old.items) }
{
    match entry {
        Entry::Input(input) => encode_input_into(alloc, input, out),
        Entry::Outcome(outcome) => encode_outcome_into(alloc, outcome, out),
    }
}

/// Appends the payload of the entry that is this input. After an error `out` is as before.
///
/// # Errors
///
/// `OutOfMemory` where the allocator has none.
pub fn encode_input_into(alloc: Global, input: &Input, out: &mut Vec<u8>) -> Result<(), OutOfMemory>
    requires { IsNormal input.now }
    ensures ok { OnOk result (out.new.items ≡ out.old.items ++ payload_of (Entry.Input input.now)) }
    ensures err { OnErr result (out.new.items ≡ out.old.items) }
{
    let payload = input_payload(alloc, input)?;
    out.extend_from_slice(payload.as_slice())?;
    Ok(())
}

/// The payload of the entry that is this input.
#[tactic(auto, unfolding(crate::specs::Entries::payload_of))]
fn input_payload(alloc: Global, input: &Input) -> Result<Vec<u8>, OutOfMemory>
    requires { IsNormal input.now }
    ensures { IfOk result (λ payload. payload.items ≡ payload_of (Entry.Input input.now)) }
{
    match input {
        Input::Event(event) => event_payload(alloc, event),
        Input::Edit { user, edit } => value_payload(alloc, &edit_value(alloc, user, edit)?),
        Input::Receipt {
            user,
            room,
            event,
            private,
            thread,
        } => value_payload(
            alloc,
            &receipt_value(alloc, user, room, event, *private, thread)?,
        ),
        Input::Pusher(spec) => value_payload(alloc, &pusher_value(alloc, spec)?),
    }
}

/// The payload of an event, whose object isn't copied.
fn event_payload(alloc: Global, event: &Event) -> Result<Vec<u8>, OutOfMemory>
    ensures { IfOk result
        (λ payload. payload.items ≡ payload_of (Entry.Input (Input.Event event.now))) }
{
    let mut payload = Vec::new(alloc);
    payload.extend_from_slice(BEFORE_AN_EVENT)?;
    event.json().canonical_into(alloc, &mut payload)?;
    payload.push(b'}')?;
    Ok(payload)
}

/// The payload of an input that this object stands for.
fn value_payload(alloc: Global, object: &Json) -> Result<Vec<u8>, OutOfMemory>
    requires { is_valid object.now ≡ true }
    ensures { IfOk result (λ payload. payload.items ≡ input_tag ∷ canonical object.now) }
{
    let mut payload = Vec::new(alloc);
    payload.push(INPUT_TAG)?;
    object.canonical_into(alloc, &mut payload)?;
    Ok(payload)
}

/// Appends the payload of an outcome.
fn encode_outcome_into(
    alloc: Global,
    outcome: &Outcome,
    out: &mut Vec<u8>,
) -> Result<(), OutOfMemory>
    ensures ok { OnOk result
        (out.new.items ≡ out.old.items ++ payload_of (Entry.Outcome outcome.now)) }
    ensures err { OnErr result (out.new.items ≡ out.old.items) }
{
    let payload = outcome_payload(outcome);
    out.extend_from_slice(&payload)?;
    Ok(())
}

/// The payload of an outcome: its tag, its pusher and its position.
#[tactic(auto, unfolding(crate::specs::Entries::payload_of))]
fn outcome_payload(outcome: &Outcome) -> [u8; 17]
    ensures { result ≡ payload_of (Entry.Outcome outcome.now) }
{
    match outcome {
        Outcome::Pushed { pusher, position } => tagged(PUSHED_TAG, *pusher, *position),
        Outcome::GaveUp { pusher, position } => tagged(GAVE_UP_TAG, *pusher, *position),
        Outcome::Rejected { pusher, position } => tagged(REJECTED_TAG, *pusher, *position),
    }
}

/// A tag and two numbers, the lowest byte of each first.
fn tagged(tag: u8, pusher: u64, position: u64) -> [u8; 17]
    ensures { result ≡ tag ∷ eight_bytes pusher ++ eight_bytes position }
{
    let [a, b, c, d, e, f, g, h] = pusher.to_le_bytes();
    let [i, j, k, l, m, n, o, p] = position.to_le_bytes();
    [tag, a, b, c, d, e, f, g, h, i, j, k, l, m, n, o, p]
}
