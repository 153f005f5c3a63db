//! The payload of an input that is prepared.

ghost use Rattle.std.specs.Prelude.{◌≡◌, List, ℕ, Some, Err, IfOk};
ghost use Rattle.mx_records.specs.declared.entry.Entry.{Entry};
ghost use Rattle.mx_records.specs.Entries.{payload_of};
ghost use Rattle.mx_records.specs.History.{History};
ghost use Rattle.mx_records.specs.Normal.{IsNormal};
ghost use Rattle.mx_records.specs.Refusing.{refusal_of_any, NamesAPosition};
ghost use Rattle.mx_engine.specs.Planning.{Planned};
ghost use Rattle.mx_engine.specs.Preparing.{refusal_of_length, IsPrepared, RefusesInRange};
ghost use Rattle.mx_engine.specs.Preparing.{SaysOfContent};

use crate::error::PrepareError;
use mx_records::{Input, Refusal, encode_input_into, is_too_long};
use std::alloc::Global;

/// The payload of an input.
///
/// # Errors
///
/// `EntryTooLong` exactly where the input is too long to be kept; `OutOfMemory` where the allocator
/// has none.
pub(crate) fn payload_within(alloc: Global, input: &Input) -> Result<Vec<u8>, PrepareError>
    requires { IsNormal input.now }
    ensures payload { IfOk result
        (λ payload. payload.items ≡ payload_of (Entry.Input input.now)) }
    ensures exact { SaysOfContent (refusal_of_length input.now) result }
    ensures in_range { RefusesInRange result }
{
    let mut payload = Vec::new(alloc);
    encode_input_into(alloc, input, &mut payload)?;
    if is_too_long(input, payload.as_slice()) {
        return Err(PrepareError::Refused(Refusal::EntryTooLong));
    }
    Ok(payload)
}

/// Why an input is refused that is refused so whatever its length: that the history is full is told
/// only of one that isn't too long.
pub(crate) fn refused(alloc: Global, input: &Input, refusal: Refusal) -> PrepareError
    requires normal { IsNormal input.now }
    requires in_range { NamesAPosition refusal }
    ensures in_range { RefusesInRange {A = Planned} (Err result) }
    ensures exact { (server : List ℕ) (h : History)
        → refusal_of_any server h input.now ≡ Some refusal
        → IsPrepared server h input.now (Err result) }
{
    match refusal {
        Refusal::Full => match payload_within(alloc, input) {
            Ok(_) => PrepareError::Refused(Refusal::Full),
            Err(error) => error,
        },
        _ => PrepareError::Refused(refusal),
    }
}
