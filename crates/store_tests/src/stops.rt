//! What a stop at each call of the disk leaves.
use crate::fixtures::{Came, RULE, SERVER, accepted, inputs_of, left, memory};
use mx_outside::{Disk, FailingDisk, Fill, MemoryDisk};
use mx_rows::PlainRows;
use mx_store::{AcceptError, Store, StoreError};
use std::alloc::Global;
use std::process::Abort;

/// The disk of which the call with this number, from 1, fails.
fn failing(rt: &impl Abort, alloc: Global, number: u64) -> FailingDisk<MemoryDisk> {
    let numbers = [number].to_vec(alloc).expect(rt, "numbers");
    FailingDisk::new(memory(rt, alloc, b""), numbers)
}

/// What comes of the first input of an empty disk, where the call with this number fails: opening
/// makes three calls, reading two, accepting four.
fn wanted(number: u64) -> Came {
    match number {
        1..=5 => Came::Unopened(StoreError::DiskFault),
        6..=9 => Came::Unaccepted(AcceptError::DiskFault),
        _ => Came::At(1),
    }
}

#[test]
fn a_stop_at_each_call_leaves_what_was_acknowledged(rt: HostRuntime) {
    for number in 1..=10 {
        // Once the gate is written, it is left or not until it is synced.
        let (old, new, zeros, ones) = match number {
            9 => (0, 1, 0, 1),
            10 => (1, 1, 1, 1),
            _ => (0, 0, 0, 0),
        };
        for (fill, inputs) in [
            (Fill::Old, old),
            (Fill::New, new),
            (Fill::Zeros, zeros),
            (Fill::Ones, ones),
        ] {
            let right = stops(&rt, rt.alloc(), number, fill, inputs);
            assert!(rt; right, "{fill:?} at {number}");
        }
    }
}

/// Whether a failure of this call is told, and whether a crash then leaves so many inputs.
fn stops(rt: &impl Abort, alloc: Global, number: u64, fill: Fill, inputs: u64) -> bool {
    let mut disk = failing(rt, alloc, number);
    let came = accepted(rt, alloc, &mut disk, RULE);
    came == wanted(number) && leaves(rt, alloc, disk.below(), fill, inputs)
}

fn leaves(rt: &impl Abort, alloc: Global, disk: &MemoryDisk, fill: Fill, inputs: u64) -> bool {
    inputs_of(rt, alloc, left(rt, alloc, disk, fill), SERVER) == Ok(inputs)
}

#[test]
fn opening_writes_the_empty_journal(rt: HostRuntime) {
    for content in [b"".as_slice(), b"MXPUSH", b"seventeen bytes.."] {
        assert!(rt; is_emptied(&rt, rt.alloc(), content));
    }
}

/// Whether a disk with this content holds the empty journal once it was opened, whatever a crash
/// leaves of it.
fn is_emptied(rt: &impl Abort, alloc: Global, content: &[u8]) -> bool {
    let mut disk = memory(rt, alloc, content);
    assert!(rt; opens(alloc, &mut disk));
    left(rt, alloc, &disk, Fill::Old).content() == b"MXPUSHJ1\x01\0\0\0\0\0\0\0\0".as_slice()
}

fn opens<D: Disk + Drop>(alloc: Global, disk: D) -> bool {
    match Store::<D, PlainRows>::open(alloc, disk, SERVER) {
        Ok(_) => true,
        Err(_) => false,
    }
}
