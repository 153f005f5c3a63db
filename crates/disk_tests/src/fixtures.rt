//! Disks, and journals on them, that tests are made of. One that can't be made ends the test.
ghost use Rattle.std.specs.Prelude.{◌≡◌};

use mx_journal::{Journal, Phase};
use mx_outside::{Disk, Fill, MemoryDisk};
use std::alloc::Global;
use std::process::Abort;

/// The journal of no payload.
pub(crate) const EMPTY: &[u8] = b"MXPUSHJ1\x01\0\0\0\0\0\0\0\0";

/// A disk that takes memory for each call that changes it.
pub(crate) fn memory(rt: &impl Abort, alloc: Global, content: &[u8]) -> MemoryDisk {
    MemoryDisk::new(alloc, content, 0, 0).expect(rt, "a disk")
}

/// What a crash leaves.
pub(crate) fn left(rt: &impl Abort, alloc: Global, disk: &MemoryDisk, fill: Fill) -> MemoryDisk {
    disk.left(alloc, fill).expect(rt, "an image")
}

/// The journal on a disk, of which nothing was read.
pub(crate) fn opened<D: Disk + Drop>(rt: &impl Abort, alloc: Global, disk: D) -> Journal<D>
    ensures { result.phase ≡ Phase.Reading }
{
    match Journal::open(alloc, disk) {
        Ok(journal) => journal,
        Err(_) => rt.panic("no journal"),
    }
}
