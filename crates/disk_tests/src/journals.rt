//! What an image of a disk is as a journal.
use crate::fixtures::{EMPTY, left, memory};
use mx_journal::{Journal, JournalError};
use mx_outside::{Disk, Fill, MemoryDisk};
use std::alloc::Global;
use std::process::Abort;

const ONE_TWO: &[u8] = b"MXPUSHJ1\x01\0\0\0\0\0\0\0\x01\x03\0\0\0one\x01\x03\0\0\0two\0";

/// Whether a disk holds just these payloads, or why it holds no journal.
pub(crate) fn holds<D: Disk + Drop>(
    alloc: Global,
    disk: D,
    payloads: &[&[u8]],
) -> Result<bool, JournalError> {
    match Journal::open(alloc, disk) {
        Ok(mut journal) => are_next(alloc, &mut journal, payloads),
        Err(error) => Err(error.cause),
    }
}

fn are_next<D: Disk>(
    alloc: Global,
    journal: &mut Journal<D>,
    payloads: &[&[u8]],
) -> Result<bool, JournalError> {
    for payload in payloads {
        let answer = is_next(alloc, journal, Some(*payload));
        if answer != Ok(true) {
            return answer;
        }
    }
    is_next(alloc, journal, None)
}

/// Whether this payload is next, or none follows where it is none.
fn is_next<D: Disk>(
    alloc: Global,
    journal: &mut Journal<D>,
    wanted: Option<&[u8]>,
) -> Result<bool, JournalError> {
    let mut payload = Vec::new(alloc);
    match journal.next_record(&mut payload) {
        Ok(true) => Ok(wanted == Some(payload.as_slice())),
        Ok(false) => Ok(wanted.is_none()),
        Err(error) => Err(error),
    }
}

#[test]
fn short_disks_are_written_anew(rt: HostRuntime) {
    for content in [
        b"".as_slice(),
        b"x",
        &EMPTY[..16],
        EMPTY,
        b"MXPUSHJ1\x01\0\0\0\0\0\0\0\x01",
    ] {
        let is_empty = becomes_empty(&rt, rt.alloc(), content);
        assert!(rt; is_empty, "of {}", content.len());
    }
}

/// Whether opening makes the empty journal of a disk, and a crash leaves that.
fn becomes_empty(rt: &impl Abort, alloc: Global, content: &[u8]) -> bool {
    let mut disk = memory(rt, alloc, content);
    holds(alloc, &mut disk, &[]) == Ok(true)
        && disk.content() == EMPTY
        && leaves_empty(rt, alloc, &disk)
}

fn leaves_empty(rt: &impl Abort, alloc: Global, disk: &MemoryDisk) -> bool {
    left(rt, alloc, disk, Fill::Old).content() == EMPTY
}

#[test]
fn the_first_fault_has_its_offset(rt: HostRuntime) {
    // A journal of two records that ends at each offset: 18 to 23 in the first record, and so on.
    for (from, to, wanted) in [
        (18, 24, Err(JournalError::NotAJournal(16))),
        (24, 32, Err(JournalError::NotAJournal(24))),
        (32, 33, Err(JournalError::NotAJournal(32))),
        (33, 34, Ok(true)),
    ] {
        for end in from..to {
            assert_eq!(rt; front_holds(&rt, rt.alloc(), end), wanted, "at {end}");
        }
    }
}

/// What so many bytes of a journal of two payloads are.
fn front_holds(rt: &impl Abort, alloc: Global, end: usize) -> Result<bool, JournalError> {
    let front = ONE_TWO.get(..end).expect(rt, "a front");
    holds(alloc, memory(rt, alloc, front), &[b"one", b"two"])
}

#[test]
fn headers_gates_and_lengths_are_told_apart(rt: HostRuntime) {
    for (content, payloads, wanted) in CONTENTS {
        let answer = holds(rt.alloc(), memory(&rt, rt.alloc(), content), payloads);
        assert_eq!(rt; answer, wanted, "{content:?}");
    }
}

#[rattlefmt::skip]
static CONTENTS: [(&[u8], &[&[u8]], Result<bool, JournalError>); 8] = [
    (b"xxxxxxxxxxxxxxxxxx", &[], Err(JournalError::NotAJournal(0))),
    (b"MXPUSHJ1\x01\0\0\0\0\0\0\0\x01\0\0\0\0\0", &[], Err(JournalError::NotAJournal(16))),
    (b"MXPUSHJ1\x01\0\0\0\0\0\0\0\x01\x01\0\x04\0one\0", &[], Err(JournalError::NotAJournal(16))),
    (b"MXPUSHJ1\x01\0\0\0\0\0\0\0\x01\xff\xff\xff\xffone\0", &[], Err(JournalError::NotAJournal(16))),
    (b"MXPUSHJ1\x01\0\0\0\0\0\0\0\0\x03\0\0\0one\0", &[], Ok(true)),
    (b"MXPUSHJ1\x01\0\0\0\0\0\0\0\x02\x03\0\0\0one\0", &[], Ok(true)),
    (b"MXPUSHJ1\x01\0\0\0\0\0\0\0\x01\x03\0\0\0one\xff\x01\x01", &[b"one"], Ok(true)),
    (b"MXPUSHJ1\x01\0\0\0\0\0\0\0\x01\x03\0\0\0one\0\x01\x03\0\0\0two\0", &[b"one"], Ok(true)),
];
