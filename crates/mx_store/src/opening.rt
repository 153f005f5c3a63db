//! A journal, opened and read to its end.
ghost use Rattle.std.specs.Prelude.{◌≡◌, ◌≢◌, ℕ, List, [], Some, IfErr, IfOk, IfSome, MatchResult};
ghost use Rattle.mx_outside.specs.Told.{Rose};
ghost use Rattle.mx_outside.specs.Disk.{Only, LeavesOnly};
ghost use Rattle.mx_journal.specs.Calls.{OnlyReads};
ghost use Rattle.mx_journal.specs.Journal.{IsLongOrEmpty};
ghost use Rattle.mx_journal.specs.Opening.{IsLeftByOpening};
ghost use Rattle.mx_records.specs.History.{History};
ghost use Rattle.mx_records.specs.Snapshot.{snapshot_of};
ghost use Rattle.mx_store.specs.Standing.{HasFirstFaultAt, StandsFor};
ghost use Rattle.mx_store.specs.Store.{disk_replayed, IsReplayed};

use crate::replay::read_entries;
use crate::{OpenError, StoreError};
use mx_engine::Engine;
use mx_journal::{Journal, Phase};
use mx_outside::Disk;
use mx_rows::Rows;
use std::alloc::Global;

/// Opens the journal on a disk, and accepts all its entries; answers it, and how many they are.
///
/// # Errors
///
/// `NotAJournal` with the offset of the first fault, `DiskFault` where the disk failed, and
/// `OutOfMemory` where the allocator has none. Each hands back the disk.
pub(crate) fn replay<D: Disk, R: Rows>(
    alloc: Global,
    disk: D,
    engine: &mut Engine<R>,
) -> Result<(Journal<D>, u64), OpenError<D>>
    requires empty { engine.old.shown ≡ snapshot_of engine.old.server [] }
    ensures server { engine.new.server ≡ engine.old.server }
    ensures replayed { IfOk result (λ opened. (h : History)
        × IsReplayed D.seen D.may_leave disk opened.0
        engine.new.server engine.new.shown opened.1 h) }
    ensures phase { IfOk result (λ opened. opened.0.phase ≡ Phase.Writing) }
    ensures not_a_journal { IfErr result (λ error. (content : List ℕ) (offset : ℕ)
        → D.seen disk ≡ Some content → error.cause ≡ StoreError.NotAJournal offset
        → HasFirstFaultAt engine.old.server content offset) }
    ensures only_reads { (content : List ℕ) → D.seen disk ≡ Some content → IsLongOrEmpty content
        → OnlyReads D.same_disk D.seen D.may_leave D.moment D.left_since
        disk (disk_replayed result) }
    ensures any_moment { (content : List ℕ) (h : History)
        → D.seen disk ≡ Some content → Only content (D.may_leave disk)
        → StandsFor engine.old.server content h
        → LeavesOnly D.moment D.left_since disk (disk_replayed result)
        (λ image. StandsFor engine.old.server image h) }
    ensures nothing_else { (content : List ℕ)
        → D.seen disk ≡ Some content → Only content (D.may_leave disk)
        → LeavesOnly D.moment D.left_since disk (disk_replayed result)
        (IsLeftByOpening content) }
    ensures remains { IfSome (D.seen disk) (D.may_leave disk)
        → IfSome (D.seen (disk_replayed result)) (D.may_leave (disk_replayed result)) }
    ensures fault { IfErr result (λ error. error.cause ≡ StoreError.DiskFault
        → Rose (D.faults disk) (D.faults error.disk)) }
    ensures steady { MatchResult result
        (λ opened. D.faults opened.0.disk ≡ D.faults disk)
        (λ error. error.cause ≢ StoreError.DiskFault
        → D.faults error.disk ≡ D.faults disk) }
    ensures stays { D.same_disk disk (disk_replayed result) }
{
    let mut journal = match Journal::open(alloc, disk) {
        Ok(journal) => journal,
        Err(error) => {
            return Err(OpenError {
                cause: StoreError::from(error.cause),
                disk: error.disk,
            });
        }
    };
    match read_entries(alloc, &mut journal, engine) {
        Ok(count) => Ok((journal, count)),
        Err(cause) => Err(OpenError {
            cause,
            disk: journal.into_disk(),
        }),
    }
}
