//! Disks, inputs and stores that tests are made of. One that can't be made ends the test.
ghost use Rattle.mx_records.specs.Normal.{IsNormal};
ghost use Rattle.mx_records.specs.Refusing.{IsBuilt};

use mx_json::Json;
use mx_outside::{Disk, Fill, MemoryDisk};
use mx_records::Input;
use mx_rows::PlainRows;
use mx_store::{AcceptError, Store, StoreError, Tally};
use std::alloc::Global;
use std::process::Abort;

pub(crate) const SERVER: &str = "example.org";

/// An edit of a rule, in the text that stands for it.
pub(crate) const RULE: &str =
    r#"{"cmd":"rule_enable","enabled":false,"kind":"override","rule_id":".m.rule.master","user":"@b:example.org"}"#;

/// A disk that takes memory for each call that changes it.
pub(crate) fn memory(rt: &impl Abort, alloc: Global, content: &[u8]) -> MemoryDisk {
    MemoryDisk::new(alloc, content, 0, 0).expect(rt, "a disk")
}

/// What a crash leaves.
pub(crate) fn left(rt: &impl Abort, alloc: Global, disk: &MemoryDisk, fill: Fill) -> MemoryDisk {
    disk.left(alloc, fill).expect(rt, "an image")
}

/// The input of a line.
pub(crate) fn input(rt: &impl Abort, alloc: Global, line: &str) -> Input
    ensures normal { IsNormal result }
    ensures built { IsBuilt result }
{
    let Ok(json) = Json::from_text(alloc, line.as_bytes(), 100) else {
        rt.panic(line)
    };
    match Input::from_json(alloc, json) {
        Ok(Input::Pusher(_)) | Err(_) => rt.panic(line),
        Ok(input) => input,
    }
}

/// What comes of an input, once the store is opened.
#[derive(Clone, Copy, Debug, PartialEq, Eq)]
pub(crate) enum Came {
    Unopened(StoreError),
    Unaccepted(AcceptError),
    At(u64),
}

/// Opens a store on a disk, and accepts one input.
pub(crate) fn accepted<D: Disk + Drop>(
    rt: &impl Abort,
    alloc: Global,
    disk: D,
    line: &str,
) -> Came {
    match Store::<D, PlainRows>::open(alloc, disk, SERVER) {
        Ok(mut store) => match store.accept(alloc, &input(rt, alloc, line)) {
            Ok(position) => Came::At(position),
            Err(error) => Came::Unaccepted(error),
        },
        Err(error) => Came::Unopened(error.cause),
    }
}

/// How many inputs a disk has under this name. Each entry is one.
pub(crate) fn inputs_of<D: Disk + Drop>(
    rt: &impl Abort,
    alloc: Global,
    disk: D,
    server: &str,
) -> Result<u64, StoreError> {
    match Store::<D, PlainRows>::tally(alloc, disk, server) {
        Ok(tallied) => {
            let Tally { entries, inputs } = tallied.tally;
            assert_eq!(rt; entries, inputs);
            Ok(inputs)
        }
        Err(error) => Err(error.cause),
    }
}
