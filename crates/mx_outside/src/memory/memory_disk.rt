ghost use Rattle.std.specs.Prelude.{◌≡◌, ◌+◌, ◌^◌, ◌<◌, ◌≤◌, ℕ, List, Some, Ok, [], length, take};
ghost use Rattle.std.specs.Prelude.{drop, IsTrue, IsErr, IsOk, IfSome, IfOk, OnOk, OnErr};
ghost use Rattle.std.specs.Prelude.{MatchResult, ◌↔◌};
ghost use Rattle.mx_outside.specs.Budget.{Covers};
ghost use Rattle.mx_outside.specs.Changes.{AreChanges};
ghost use Rattle.mx_outside.specs.Changes.Change.{written, cut_to, synced};

use crate::disk::Disk;
use crate::fault::Failed;
use crate::memory::disk_image::DiskImage;
use crate::memory::disk_log::DiskLog;
use crate::memory::fill::Fill;
use mx_json::OutOfMemory;
use std::alloc::{AllocError, Global};
use std::marker::Model;

/// The greatest length of a disk in bytes.
const GREATEST_LENGTH: u64 = 0x7fff_ffff_ffff_ffff;

/// A disk in memory, which can say what a crash at this moment may leave of it.
///
/// It keeps what it had at first and each call that changed it. A call fails only where it finds
/// no memory, or where the disk would be longer than 2^63 - 1 bytes.
#[derive(Drop)]
pub struct MemoryDisk {
    first: Vec<u8>,
    image: DiskImage,
    log: DiskLog,
    byte_capacity: usize,
    call_capacity: usize,
    faults: u64,
}

impl Model for MemoryDisk {
    ghost use Rattle.mx_outside.specs.MemoryDisk.{Medium, HoldsMedium};

    ghost Value = { Medium };

    ghost view = { λ d. record {
      first = d.first.items;
      changes = d.log.changes;
      byte_capacity = d.byte_capacity;
      call_capacity = d.call_capacity;
      faults = d.faults;
    } };

    ghost invariant = { λ d.
        HoldsMedium d.first.items d.image d.log d.byte_capacity d.call_capacity };
}

/// Whether a piece of so many bytes at `at` ends within the greatest length.
fn is_within(at: u64, count: usize) -> bool
    ensures { IsTrue result ↔ (at + count < 2 ^ 63) }
{
    match at.checked_add(count as u64) {
        Some(end) => end <= GREATEST_LENGTH,
        None => false,
    }
}

impl MemoryDisk {
    ghost use Rattle.mx_outside.specs.Since.{LeavesImages};
    ghost use Rattle.mx_outside.specs.MemoryDisk.{Medium, content_now, MayLeaveNow, budget_of};
    ghost use Rattle.mx_outside.specs.MemoryDisk.{Changes, changed, faulted, left_by, at_rest};

    /// A disk with this content, with memory for writes of `bytes` bytes in all and for `calls`
    /// calls that change it. Calls within these take no memory. `OutOfMemory` where there
    /// is no memory for them.
    pub fn new(
        alloc: Global,
        content: &[u8],
        bytes: usize,
        calls: usize,
    ) -> Result<MemoryDisk, OutOfMemory>
        ensures { IfOk result (λ disk. disk ≡ at_rest content.now bytes calls) }
    {
        Ok(MemoryDisk {
            first: Vec::from_slice(alloc, content)?,
            image: DiskImage::new(alloc, content, bytes)?,
            log: DiskLog::new(alloc, bytes, calls)?,
            byte_capacity: bytes,
            call_capacity: calls,
            faults: 0,
        })
    }

    /// What a read gives.
    pub fn content(&self) -> &[u8]
        ensures { result.now ≡ content_now self.now }
    {
        self.image.content()
    }

    /// A disk with the same capacity and nothing pending, whose content is the image that `fill`
    /// chooses of those that a crash now may leave. `OutOfMemory` where there is no memory for it.
    ///
    /// A crash now may leave just the images of the rule that [`Disk`] states.
    pub fn left(&self, alloc: Global, fill: Fill) -> Result<MemoryDisk, OutOfMemory>
        ensures image { IfOk result (λ disk. MayLeaveNow self.now (content_now disk)) }
        ensures content { IfOk result (λ disk.
            disk ≡ at_rest (left_by fill self.now) self.now.byte_capacity self.now.call_capacity) }
        ensures images { LeavesImages self.now.changes self.now.first }
    {
        let content = self.chosen(alloc, fill)?;
        MemoryDisk::new(alloc, &content, self.byte_capacity, self.call_capacity)
    }

    fn chosen(&self, alloc: Global, fill: Fill) -> Result<Vec<u8>, AllocError>
        ensures chosen { IfOk result (λ bytes. bytes.items ≡ left_by fill self.now) }
        ensures valid { AreChanges self.now.changes self.now.first }
    {
        let image = &self.image;
        match fill {
            Fill::Old => Vec::from_slice(alloc, image.synced()),
            Fill::New => Vec::from_slice(alloc, image.content()),
            Fill::Zeros => image.filled(alloc, 0),
            Fill::Ones => image.filled(alloc, 1),
        }
    }

    fn write_here(&mut self, at: usize, piece: &[u8]) -> Result<(), AllocError>
        requires place { at ≤ length (content_now self.old) }
        requires end { at + length piece.now < 2 ^ 63 }
        ensures changes { MatchResult result
            (λ _. self.new ≡ changed self.old (written at piece.now))
            (λ _. self.new ≡ self.old) }
        ensures within { Covers (budget_of self.old) (length piece.now) → IsOk result }
        ensures valid { AreChanges self.new.changes self.new.first }
    {
        self.image.reserve(at + piece.len())?;
        self.log.reserve(piece.len())?;
        self.image.write(at, piece);
        self.log.push_written(at, piece);
        Ok(())
    }

    fn cut_here(&mut self, to: usize) -> Result<(), AllocError>
        requires { to ≤ length (content_now self.old) }
        ensures changes { MatchResult result
            (λ _. self.new ≡ changed self.old (cut_to to))
            (λ _. self.new ≡ self.old) }
        ensures within { Covers (budget_of self.old) 0 → IsOk result }
        ensures valid { AreChanges self.new.changes self.new.first }
    {
        self.log.reserve(0)?;
        self.image.cut(to);
        self.log.push_cut(to);
        Ok(())
    }

    fn sync_here(&mut self) -> Result<(), AllocError>
        ensures changes { MatchResult result
            (λ _. self.new ≡ changed self.old synced)
            (λ _. self.new ≡ self.old) }
        ensures within { Covers (budget_of self.old) 0 → IsOk result }
        ensures valid { AreChanges self.new.changes self.new.first }
    {
        self.log.reserve(0)?;
        self.image.sync();
        self.log.push_synced();
        Ok(())
    }

    fn fail(&mut self) -> Failed
        ensures faulted { self.new ≡ faulted self.old }
        ensures rises { self.old.faults ≤ self.new.faults }
        ensures valid { AreChanges self.new.changes self.new.first }
    {
        self.faults = self.faults.saturating_add(1);
        Failed
    }
}

impl Disk for MemoryDisk {
    ghost use Rattle.mx_outside.specs.Told.{WhereTold, Rose};
    ghost use Rattle.mx_outside.specs.Disk.{Torn, Shortened, Follows, NoMore, SameImages, Only};
    ghost use Rattle.mx_outside.specs.Disk.{Elapses, Wrote, WasCut, IsRead};
    ghost use Rattle.mx_outside.specs.MemoryDisk.{content_now, MayLeaveNow, moment_of, LeftSince};
    ghost use Rattle.mx_outside.specs.MemoryDisk.{budget_of, Changes};
    ghost use Rattle.mx_outside.specs.MediumLaws.{counts_now, only_now};

    ghost seen = { λ d. Some (content_now d) };

    ghost may_leave = { MayLeaveNow };

    ghost moment = { moment_of };

    ghost left_since = { LeftSince };

    ghost faults = { λ d. d.faults };

    ghost budget = { budget_of };

    ghost same_disk = { λ _ _. Unit {0} };

    /// The length in bytes. It never fails.
    fn len(&mut self) -> Result<u64, Failed>
        ensures length { result ≡ Ok (length (content_now self.old)) }
        ensures bounded { IfOk result (λ n. n < 2 ^ 63) }
        ensures same { self.new ≡ self.old }
        ensures possible { MayLeaveNow self.new (content_now self.new) }
    {
        Ok(self.image.content().len() as u64)
    }

    /// Fills the buffer with the bytes from `at` on. It never fails.
    fn read(&mut self, at: u64, into: &mut [u8]) -> Result<(), Failed>
        requires { at + length into.old ≤ length (content_now self.old) }
        ensures bytes { into.new ≡ take (length into.new) (drop at (content_now self.old)) }
        ensures ok { IsOk result }
        ensures same { self.new ≡ self.old }
        ensures possible { MayLeaveNow self.new (content_now self.new) }
    {
        let from = at as usize;
        let content = self.image.content();
        into.copy_from_slice(&content[from..from + into.len()]);
        Ok(())
    }

    /// Writes the piece. It fails only past its capacity or past the greatest length, and changes
    /// nothing then.
    fn write_at(&mut self, at: u64, piece: &[u8]) -> Result<(), Failed>
        requires { at ≤ length (content_now self.old) }
        ensures changes { Changes result (written at piece.now) self.old self.new }
        ensures within { Covers (budget_of self.old) (length piece.now)
            → at + length piece.now < 2 ^ 63 → IsOk result }
        ensures bounded { 2 ^ 63 ≤ at + length piece.now → IsErr result }
        ensures time { Elapses (moment_of self.old) (moment_of self.new)
            (LeftSince self.old) (LeftSince self.new) (MayLeaveNow self.new) }
        ensures possible { MayLeaveNow self.new (content_now self.new) }
        ensures count { self.old.faults ≤ self.new.faults }
    {
        if !is_within(at, piece.len()) {
            return Err(self.fail());
        }
        match self.write_here(at as usize, piece) {
            Ok(()) => Ok(()),
            Err(_) => Err(self.fail()),
        }
    }

    /// Cuts the disk. It fails only past its capacity, and changes nothing then.
    fn cut(&mut self, to: u64) -> Result<(), Failed>
        requires { to ≤ length (content_now self.old) }
        ensures changes { Changes result (cut_to to) self.old self.new }
        ensures within { Covers (budget_of self.old) 0 → IsOk result }
        ensures time { Elapses (moment_of self.old) (moment_of self.new)
            (LeftSince self.old) (LeftSince self.new) (MayLeaveNow self.new) }
        ensures possible { MayLeaveNow self.new (content_now self.new) }
        ensures count { self.old.faults ≤ self.new.faults }
    {
        match self.cut_here(to as usize) {
            Ok(()) => Ok(()),
            Err(_) => Err(self.fail()),
        }
    }

    /// Syncs the disk. It fails only past its capacity, and changes nothing then.
    fn sync(&mut self) -> Result<(), Failed>
        ensures changes { Changes result synced self.old self.new }
        ensures within { Covers (budget_of self.old) 0 → IsOk result }
        ensures crash { NoMore (MayLeaveNow self.old) (MayLeaveNow self.new) }
        ensures time { Elapses (moment_of self.old) (moment_of self.new)
            (LeftSince self.old) (LeftSince self.new) (MayLeaveNow self.new) }
        ensures possible { MayLeaveNow self.new (content_now self.new) }
        ensures count { self.old.faults ≤ self.new.faults }
    {
        match self.sync_here() {
            Ok(()) => Ok(()),
            Err(_) => Err(self.fail()),
        }
    }

    ghost counts_now = { counts_now };

    ghost only_now = { only_now };

    ghost same_disk_now = { λ _. tt };

    ghost same_disk_then = { λ _ _ _ _ _. tt };
}
