//! A disk in memory: what a crash leaves of it.
use crate::fixtures::{left, memory};
use mx_outside::{Disk, Failed, Fill, MemoryDisk};
use std::alloc::Global;
use std::process::Abort;

#[test]
fn a_crash_leaves_what_the_fill_chooses(rt: HostRuntime) {
    for (synced, fill, wanted) in [
        (false, Fill::Old, b"abcdef".as_slice()),
        (false, Fill::New, b"abcdWXY"),
        (false, Fill::Zeros, b"abcd\0\0\0"),
        (false, Fill::Ones, b"abcd\x01\x01\x01"),
        (true, Fill::Old, b"abcdWXY"),
        (true, Fill::New, b"abcdWXY!"),
        (true, Fill::Zeros, b"abcdWXY\0"),
        (true, Fill::Ones, b"abcdWXY\x01"),
    ] {
        let left = crash_leaves(&rt, rt.alloc(), synced, fill, wanted);
        assert!(rt; left, "{fill:?}, synced: {synced}");
    }
}

/// Whether a crash leaves this after a write, a cut, and, where `synced` is true, a sync and one
/// more write.
fn crash_leaves(rt: &impl Abort, alloc: Global, synced: bool, fill: Fill, wanted: &[u8]) -> bool {
    let mut disk = memory(rt, alloc, b"abcdef");
    change(rt, &mut disk, synced);
    is_left(rt, alloc, &disk, fill, wanted)
}

fn change<D: Disk>(rt: &impl Abort, disk: &mut D, synced: bool) {
    write(rt, disk, 4, b"WXYZ").expect(rt, "a write");
    cut(rt, disk, 7).expect(rt, "a cut");
    if synced {
        disk.sync().expect(rt, "a sync");
        write(rt, disk, 7, b"!").expect(rt, "a write");
    }
}

fn write<D: Disk>(rt: &impl Abort, disk: &mut D, at: u64, piece: &[u8]) -> Result<(), Failed> {
    let length = disk.len().expect(rt, "a length");
    assert!(rt; at <= length);
    disk.write_at(at, piece)
}

fn cut<D: Disk>(rt: &impl Abort, disk: &mut D, to: u64) -> Result<(), Failed> {
    let length = disk.len().expect(rt, "a length");
    assert!(rt; to <= length);
    disk.cut(to)
}

fn is_left(rt: &impl Abort, alloc: Global, disk: &MemoryDisk, fill: Fill, wanted: &[u8]) -> bool {
    left(rt, alloc, disk, fill).content() == wanted
}
