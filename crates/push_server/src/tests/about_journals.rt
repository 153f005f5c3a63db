//! What is said of a journal as a whole.

use crate::journal_lines::{fault_into, tally_into};
use crate::status::Status;
use std::alloc::Global;

#[test]
fn what_is_said_of_a_journal(rt: HostRuntime) {
    assert!(rt;
        is_tallied(rt.alloc(), 0, 0, b"= {\"entries\":0,\"inputs\":0}\n"),
        "none"
    );
    assert!(rt;
        is_tallied(rt.alloc(), 12, 10, b"= {\"entries\":12,\"inputs\":10}\n"),
        "some"
    );
    assert!(rt;
        is_faulty(
            rt.alloc(),
            129,
            b"= {\"error\":\"NotAJournal\",\"offset\":129}\n"
        ),
        "no journal"
    );
}

/// Whether a tally is said so, behind what was said before.
fn is_tallied(alloc: Global, entries: u64, inputs: u64, line: &[u8]) -> bool {
    let mut out = Vec::new(alloc);
    for _ in 0..2 {
        if tally_into(alloc, entries, inputs, &mut out).is_err() {
            return false;
        }
    }
    is_twice(&out, line)
}

/// Whether a fault is said so, behind what was said before.
fn is_faulty(alloc: Global, offset: u64, line: &[u8]) -> bool {
    let mut out = Vec::new(alloc);
    for _ in 0..2 {
        if fault_into(alloc, offset, &mut out).is_err() {
            return false;
        }
    }
    is_twice(&out, line)
}

fn is_twice(out: &[u8], line: &[u8]) -> bool {
    out.strip_prefix(line) == Some(line)
}

#[test]
fn each_status_has_its_number_and_its_line(rt: HostRuntime) {
    for (status, code, line) in STATUSES {
        assert!(rt; status.code() == code && status.line() == line, "{code}");
    }
}

#[rattlefmt::skip]
static STATUSES: [(Status, u8, Option<&str>); 8] = [
    (Status::Done, 0, None),
    (Status::Usage, 2, Some("push_server: usage")),
    (Status::ReadFault, 3, Some("push_server: read fault")),
    (Status::WriteFault, 4, Some("push_server: write fault")),
    (Status::DiskFault, 5, Some("push_server: disk fault")),
    (Status::NotAJournal, 6, Some("push_server: not a journal")),
    (Status::OutOfMemory, 7, Some("push_server: out of memory")),
    (Status::InputLimit, 8, Some("push_server: input limit")),
];
