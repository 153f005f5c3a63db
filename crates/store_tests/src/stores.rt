//! Stores opened on disks, one input at a time.
use crate::fixtures::{Came, RULE, SERVER, accepted, inputs_of, memory};
use mx_outside::MemoryDisk;
use mx_records::Refusal;
use mx_store::{AcceptError, StoreError};
use std::alloc::Global;
use std::process::Abort;

const MESSAGE: &str =
    r#"{"cmd":"event","event":{"content":{},"event_id":"$1","room_id":"!r:example.org","sender":"@a:example.org","type":"m.room.message"}}"#;

#[rattlefmt::skip]
static RULE_IMAGE: &[u8] =
    b"MXPUSHJ1\x01\0\0\0\0\0\0\0\x01\x6b\0\0\0\x01{\"cmd\":\"rule_enable\",\"enabled\":false,\"kind\":\"override\",\"rule_id\":\".m.rule.master\",\"user\":\"@b:example.org\"}\0";

#[test]
fn one_entry_has_its_image(rt: HostRuntime) {
    let alloc = rt.alloc();
    let mut disk = memory(&rt, alloc, b"");
    assert_eq!(rt; accepted(&rt, alloc, &mut disk, RULE), Came::At(1));
    assert!(rt; disk.content() == RULE_IMAGE);
}

#[test]
fn inputs_outlive_the_store(rt: HostRuntime) {
    let alloc = rt.alloc();
    let mut disk = memory(&rt, alloc, b"");
    assert_eq!(rt; accepted(&rt, alloc, &mut disk, RULE), Came::At(1));
    assert_eq!(rt; accepted(&rt, alloc, &mut disk, MESSAGE), Came::At(2));
    assert_eq!(rt; inputs_of(&rt, alloc, &mut disk, SERVER), Ok(2));
}

#[test]
fn a_refused_input_is_not_kept(rt: HostRuntime) {
    let alloc = rt.alloc();
    let mut disk = memory(&rt, alloc, b"");
    assert_eq!(rt; accepted(&rt, alloc, &mut disk, MESSAGE), Came::At(1));
    assert_eq!(rt;
        accepted(&rt, alloc, &mut disk, MESSAGE),
        Came::Unaccepted(AcceptError::Refused(Refusal::KnownEvent(1)))
    );
    assert_eq!(rt; inputs_of(&rt, alloc, &mut disk, SERVER), Ok(1));
}

#[test]
fn a_tally_writes_nothing(rt: HostRuntime) {
    for content in [
        b"".as_slice(),
        b"MXPUSHJ1",
        b"MXPUSHJ1\x01\0\0\0\0\0\0\0\x02",
        RULE_IMAGE,
        b"no journal, and more than 17 bytes",
    ] {
        assert!(rt; stays_the_same(&rt, rt.alloc(), content));
    }
}

/// Whether the disk has the same bytes after a tally.
fn stays_the_same(rt: &impl Abort, alloc: Global, content: &[u8]) -> bool {
    let mut disk: MemoryDisk = memory(rt, alloc, content);
    let _answer = inputs_of(rt, alloc, &mut disk, SERVER);
    disk.content() == content
}

#[test]
fn another_server_has_no_such_history(rt: HostRuntime) {
    let alloc = rt.alloc();
    assert_eq!(rt;
        inputs_of(&rt, alloc, memory(&rt, alloc, RULE_IMAGE), "example.com"),
        Err(StoreError::NotAJournal(16))
    );
}
