//! Putting a record together.
ghost use Rattle.std.specs.Prelude.{◌≡◌, ◌+◌, ◌<◌, ◌≤◌, ◌++◌, length, vec_len, vec_capacity, OnOk};
ghost use Rattle.mx_journal.specs.Image.{payload_limit};
ghost use Rattle.mx_journal.specs.Held.{staged_bytes};

use crate::format::CLOSED_GATE;
use std::alloc::AllocError;

/// Takes the memory for this many bytes in all.
pub(crate) fn reserve_to(staged: &mut Vec<u8>, size: usize) -> Result<(), AllocError>
    ensures items { staged.new.items ≡ staged.old.items }
    ensures reserved { OnOk result (size ≤ vec_capacity staged.new) }
{
    staged.reserve(size.saturating_sub(staged.len()))
}

/// Writes the body of a record and a closed gate in the place of what was staged.
pub(crate) fn put_record(staged: &mut Vec<u8>, payload: &[u8])
    requires short { length payload.now ≤ payload_limit }
    requires fits { length payload.now + 5 ≤ vec_capacity staged.old }
    ensures { staged.new.items ≡ staged_bytes payload.now }
{
    staged.clear();
    append_reserved(staged, &(payload.len() as u32).to_le_bytes());
    append_reserved(staged, payload);
    append_reserved(staged, &[CLOSED_GATE]);
}

fn append_reserved(staged: &mut Vec<u8>, bytes: &[u8])
    requires { vec_len staged.old + length bytes.now ≤ vec_capacity staged.old }
    ensures items { staged.new.items ≡ staged.old.items ++ bytes.now }
    ensures len { vec_len staged.new ≡ vec_len staged.old + length bytes.now }
    ensures capacity { vec_capacity staged.old ≤ vec_capacity staged.new }
{
    match staged.extend_from_slice(bytes) {
        Ok(()) => {}
        Err(_) => unreachable!(),
    }
}
