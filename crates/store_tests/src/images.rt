//! What an image of a disk is as a history.
use crate::fixtures::{Came, RULE, SERVER, accepted, inputs_of, memory};
use mx_outside::MemoryDisk;
use mx_store::StoreError;
use std::alloc::Global;
use std::process::Abort;

#[test]
fn an_image_has_its_inputs_or_its_first_fault(rt: HostRuntime) {
    for (content, wanted) in [
        (b"".as_slice(), Ok(0)),
        (b"MXPUSHJ1\x01\0\0\0\0\0\0\0\x01", Ok(0)),
        (b"MXPUSHJ1\x01\0\0\0\0\0\0\0\0behind", Ok(0)),
        (b"MXPUSHJ2\x01\0\0\0\0\0\0\0\0behind", fault(0)),
        (b"MXPUSHJ1\x01\0\0\0\0\0\0\0\x01\x03\0\0\0one\0", fault(16)),
        (
            b"MXPUSHJ1\x01\0\0\0\0\0\0\0\x01\x02\0\0\0\x01{\0",
            fault(16),
        ),
        // No outcome is acceptable before pushers are built.
        (
            b"MXPUSHJ1\x01\0\0\0\0\0\0\0\x01\x11\0\0\0\x02\x01\0\0\0\0\0\0\0\x01\0\0\0\0\0\0\0\0",
            fault(16),
        ),
    ] {
        let alloc = rt.alloc();
        assert_eq!(rt;
            inputs_of(&rt, alloc, memory(&rt, alloc, content), SERVER),
            wanted
        );
    }
}

/// No journal, by a fault at this offset.
fn fault(offset: u64) -> Result<u64, StoreError> {
    Err(StoreError::NotAJournal(offset))
}

/// How many bytes a record of `RULE` has, with its gate.
const RECORD: u64 = 112;

/// Where the records begin.
const FRONT: u64 = 16;

/// Where, in a record of `RULE`, the one letter of the user's localpart stands.
const LETTER: u64 = 97;

/// The journal of `RULE`, accepted three times.
fn three_entries(rt: &impl Abort, alloc: Global) -> MemoryDisk {
    let mut disk = memory(rt, alloc, b"");
    for position in 1..=3 {
        let came = accepted(rt, alloc, &mut disk, RULE);
        assert_eq!(rt; came, Came::At(position));
    }
    disk
}

#[test]
fn an_image_cut_at_each_offset_has_its_fault_there(rt: HostRuntime) {
    let whole = three_entries(&rt, rt.alloc());
    for length in 0..whole.content().len() {
        let right = is_cut_right(&rt, rt.alloc(), whole.content(), length);
        assert!(rt; right, "{length}");
    }
}

/// Whether an image of three entries that ends here, which is before its end, has the right fault.
fn is_cut_right(rt: &impl Abort, alloc: Global, whole: &[u8], length: usize) -> bool {
    let Some(cut) = whole.get(..length) else {
        return false;
    };
    inputs_of(rt, alloc, memory(rt, alloc, cut), SERVER) == answer_cut_at(length as u64)
}

/// What an image of three entries is that ends here: what has at most 17 bytes stands for no entry,
/// and else the last gate that it has, or misses, is faulty.
fn answer_cut_at(length: u64) -> Result<u64, StoreError> {
    if length <= 17 {
        Ok(0)
    } else {
        fault(length - (length - FRONT) % RECORD)
    }
}

#[test]
fn an_image_changed_at_each_byte_has_its_fault_or_its_history(rt: HostRuntime) {
    let whole = three_entries(&rt, rt.alloc());
    for place in 0..whole.content().len() {
        let right = is_changed_right(&rt, rt.alloc(), whole.content(), place);
        assert!(rt; right, "{place}");
    }
}

/// Whether an image of three entries is right where the byte here is one more.
fn is_changed_right(rt: &impl Abort, alloc: Global, whole: &[u8], place: usize) -> bool {
    let mut changed = whole.to_vec(alloc).expect(rt, "an image");
    let Some(byte) = changed.get_mut(place) else {
        return false;
    };
    *byte = byte.wrapping_add(1);
    inputs_of(rt, alloc, memory(rt, alloc, &changed), SERVER) == answer_changed_at(place as u64)
}

/// What an image of three entries is whose byte here is one more. A gate of 2 is closed, and a last
/// one of 1 has no record behind it; another letter is another user's; all else is no header, no
/// record or no payload.
fn answer_changed_at(place: u64) -> Result<u64, StoreError> {
    if place < FRONT {
        return fault(0);
    }
    let record = (place - FRONT) / RECORD;
    let gate = FRONT + record * RECORD;
    match (record, place - gate) {
        (3, _) => fault(gate),
        (_, 0) => Ok(record),
        (_, LETTER) => Ok(3),
        _ => fault(gate),
    }
}
