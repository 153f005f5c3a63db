//! Counts after a store was opened again.
ghost use Rattle.std.specs.Prelude.{◌≡◌};

use crate::fixtures::{SERVER, input, memory};
use mx_engine::Engine;
use mx_journal::Phase;
use mx_json::{RoomId, UserId};
use mx_outside::Disk;
use mx_records::Counts;
use mx_rows::{PlainRows, ThreadKey};
use mx_store::Store;
use std::alloc::Global;
use std::process::Abort;

/// Two users join a room of two members, and one sends a message: the other has one unread.
#[rattlefmt::skip]
const LINES: [&str; 3] = [
    r#"{"cmd":"event","event":{"content":{"membership":"join"},"event_id":"$1","room_id":"!r:example.org","sender":"@a:example.org","state_key":"@a:example.org","type":"m.room.member"}}"#,
    r#"{"cmd":"event","event":{"content":{"membership":"join"},"event_id":"$2","room_id":"!r:example.org","sender":"@b:example.org","state_key":"@b:example.org","type":"m.room.member"}}"#,
    r#"{"cmd":"event","event":{"content":{"body":"hello","msgtype":"m.text"},"event_id":"$3","room_id":"!r:example.org","sender":"@a:example.org","type":"m.room.message"}}"#,
];

#[test]
fn counts_after_opening_again_are_those_before(rt: HostRuntime) {
    let alloc = rt.alloc();
    let mut disk = memory(&rt, alloc, b"");
    for line in LINES {
        accept(&rt, alloc, &mut disk, line);
    }
    assert_eq!(rt;
        unread(&rt, alloc, &mut disk),
        Counts {
            notify: 1,
            highlight: 0
        }
    );
}

/// Opens the store on a disk.
fn opened<D: Disk + Drop>(rt: &impl Abort, alloc: Global, disk: D) -> Store<D, PlainRows>
    ensures { result.journal.phase ≡ Phase.Writing }
{
    match Store::open(alloc, disk, SERVER) {
        Ok(store) => store,
        Err(_) => rt.panic("no store"),
    }
}

fn accept<D: Disk + Drop>(rt: &impl Abort, alloc: Global, disk: D, line: &str) {
    let mut store = opened(rt, alloc, disk);
    match store.accept(alloc, &input(rt, alloc, line)) {
        Ok(_) => {}
        Err(_) => rt.panic(line),
    }
}

/// What is unread for the second user.
fn unread<D: Disk + Drop>(rt: &impl Abort, alloc: Global, disk: D) -> Counts {
    let store = opened(rt, alloc, disk);
    counts(rt, alloc, store.engine())
}

fn counts(rt: &impl Abort, alloc: Global, engine: &Engine<PlainRows>) -> Counts {
    let user = UserId::read(alloc, "@b:example.org").expect(rt, "a user");
    let room = RoomId::read(alloc, "!r:example.org").expect(rt, "a room");
    engine.counts(&user, &room, &ThreadKey::Main)
}
