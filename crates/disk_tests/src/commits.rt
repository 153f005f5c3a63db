//! What commits leave of a disk.
ghost use Rattle.std.specs.Prelude.{◌≡◌, ◌<◌, length};

use crate::fixtures::{EMPTY, left, memory, opened};
use crate::journals::holds;
use mx_journal::{Journal, Phase};
use mx_outside::{Disk, FailingDisk, Fill, MemoryDisk};
use std::alloc::Global;
use std::process::Abort;

const ONE: &[u8] = b"MXPUSHJ1\x01\0\0\0\0\0\0\0\x01\x03\0\0\0one\0";

/// Reads the payloads of a journal that has at most one.
fn read_all<D: Disk>(rt: &impl Abort, alloc: Global, journal: &mut Journal<D>)
    requires { journal.old.phase ≡ Phase.Reading }
    ensures { journal.new.phase ≡ Phase.Writing }
{
    let mut payload = Vec::new(alloc);
    if !journal.next_record(&mut payload).expect(rt, "no fault") {
        return;
    }
    if journal.next_record(&mut payload).expect(rt, "no fault") {
        rt.panic("two payloads");
    }
}

/// Adds a payload to a journal, and answers whether it is acknowledged.
fn commit<D: Disk>(rt: &impl Abort, journal: &mut Journal<D>, payload: &[u8]) -> bool
    requires some { 0 < length payload.now }
    requires all_read { journal.old.phase ≡ Phase.Writing }
{
    match journal.stage(payload) {
        Ok(()) => journal.commit().is_ok(),
        Err(_) => rt.panic("not staged"),
    }
}

#[test]
fn a_stop_at_each_call_leaves_old_or_new(rt: HostRuntime) {
    for (failing, acknowledged, old, new, zeros, ones) in [
        (9, false, false, false, false, false),
        (10, false, false, false, false, false),
        (11, false, false, false, false, false),
        (12, false, false, true, false, true),
        (13, true, true, true, true, true),
    ] {
        for (fill, has_two) in [
            (Fill::Old, old),
            (Fill::New, new),
            (Fill::Zeros, zeros),
            (Fill::Ones, ones),
        ] {
            let stopped = stops(&rt, rt.alloc(), failing, fill, acknowledged, has_two);
            assert!(rt; stopped, "{fill:?} at {failing}");
        }
    }
}

/// Whether `two` is acknowledged behind `one` where this call of the disk fails, and whether a
/// crash then leaves it. The calls of the commit are the 9th to the 12th.
fn stops(
    rt: &impl Abort,
    alloc: Global,
    failing: u64,
    fill: Fill,
    acknowledged: bool,
    has_two: bool,
) -> bool {
    let mut journal = opened(rt, alloc, failing_at(rt, alloc, failing));
    read_all(rt, alloc, &mut journal);
    commit(rt, &mut journal, b"two") == acknowledged
        && is_left(rt, alloc, &journal.into_disk(), fill, has_two)
}

fn failing_at(rt: &impl Abort, alloc: Global, failing: u64) -> FailingDisk<MemoryDisk> {
    let numbers = [failing].to_vec(alloc).expect(rt, "numbers");
    FailingDisk::new(memory(rt, alloc, ONE), numbers)
}

fn is_left(
    rt: &impl Abort,
    alloc: Global,
    disk: &FailingDisk<MemoryDisk>,
    fill: Fill,
    has_two: bool,
) -> bool {
    let payloads: &[&[u8]] = if has_two {
        &[b"one", b"two"]
    } else {
        &[b"one"]
    };
    holds(alloc, left(rt, alloc, disk.below(), fill), payloads) == Ok(true)
}

#[test]
fn commits_have_their_images(rt: HostRuntime) {
    assert!(rt; has_image(&rt, rt.alloc(), ENTRY, ENTRY_IMAGE));
    assert!(rt; is_read_again(&rt, rt.alloc(), 262_144));
}

#[rattlefmt::skip]
static ENTRY: &[u8] =
    b"\x01{\"cmd\":\"rule_enable\",\"enabled\":false,\"kind\":\"override\",\"rule_id\":\".m.rule.master\",\"user\":\"@b:example.org\"}";

#[rattlefmt::skip]
static ENTRY_IMAGE: &[u8] =
    b"MXPUSHJ1\x01\0\0\0\0\0\0\0\x01\x6b\0\0\0\x01{\"cmd\":\"rule_enable\",\"enabled\":false,\"kind\":\"override\",\"rule_id\":\".m.rule.master\",\"user\":\"@b:example.org\"}\0";

/// Whether the commit of this payload to the empty journal makes this image.
fn has_image(rt: &impl Abort, alloc: Global, payload: &[u8], image: &[u8]) -> bool {
    committed(rt, alloc, payload).content() == image
}

/// Whether a payload of so many bytes is read as it was committed.
fn is_read_again(rt: &impl Abort, alloc: Global, count: usize) -> bool {
    let payload = vec![in alloc; 7u8; count].expect(rt, "a payload");
    holds(alloc, committed(rt, alloc, &payload), &[&payload]) == Ok(true)
}

/// The disk of a journal of this payload alone.
fn committed(rt: &impl Abort, alloc: Global, payload: &[u8]) -> MemoryDisk {
    assert!(rt; !payload.is_empty());
    let mut journal = opened(rt, alloc, memory(rt, alloc, EMPTY));
    read_all(rt, alloc, &mut journal);
    assert!(rt; commit(rt, &mut journal, payload));
    journal.into_disk()
}
