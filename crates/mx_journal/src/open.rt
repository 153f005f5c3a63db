//! Making a journal of what a disk holds.
ghost use Rattle.std.specs.Prelude.{◌≡◌, ◌≢◌, ◌+◌, ◌<◌, ◌≤◌, ◌↔◌, ◌⊎◌, List, ℕ, length, take, IsOk};
ghost use Rattle.std.specs.Prelude.{IfOk, IfErr, OnOk, IsErrOf, IsTrue, IfSome, Some};
ghost use Rattle.mx_outside.specs.Budget.{CoversCalls, SpendsCalls};
ghost use Rattle.mx_outside.specs.Disk.{Only, LeavesOnly, CountsFaults};
ghost use Rattle.mx_journal.specs.Calls.{OnlyReads, CountsDiskFaults};
ghost use Rattle.mx_journal.specs.Fault.{LacksHeader};
ghost use Rattle.mx_journal.specs.Image.{header, empty_journal};
ghost use Rattle.mx_journal.specs.Journal.{IsLongOrEmpty};
ghost use Rattle.mx_journal.specs.Opening.{IsLeftByOpening};

use crate::JournalError;
use crate::format::{CLOSED_GATE, EMPTY_JOURNAL, HEADER};
use crate::read::read_gate;
use crate::write::write_through;
use mx_outside::{Disk, Failed};

/// Makes sure that a journal begins here: tests a long disk for the header, and writes a short one.
pub(crate) fn begin<D: Disk>(disk: &mut D) -> Result<(), JournalError>
    ensures short { (content : List ℕ) → D.seen disk.old ≡ Some content → length content ≤ 17
        → OnOk result (D.seen disk.new ≡ Some empty_journal) }
    ensures long { (content : List ℕ) → D.seen disk.old ≡ Some content → 17 < length content
        → OnOk result (take 16 content ≡ header) }
    ensures only_reads { (content : List ℕ) → D.seen disk.old ≡ Some content → IsLongOrEmpty content
        → OnlyReads D.same_disk D.seen D.may_leave D.moment D.left_since disk.old disk.new }
    ensures durable { (content : List ℕ)
        → D.seen disk.old ≡ Some content → Only content (D.may_leave disk.old)
        → OnOk result (IfSome (D.seen disk.new) (λ now. Only now (D.may_leave disk.new))) }
    ensures any_moment { (content : List ℕ)
        → D.seen disk.old ≡ Some content → Only content (D.may_leave disk.old)
        → LeavesOnly D.moment D.left_since disk.old disk.new (IsLeftByOpening content) }
    ensures possible { OnOk result (IfSome (D.seen disk.new) (D.may_leave disk.new)) }
    ensures remains { IfSome (D.seen disk.old) (D.may_leave disk.old)
        → IfSome (D.seen disk.new) (D.may_leave disk.new) }
    ensures not_a_journal { (content : List ℕ) (offset : ℕ)
        → D.seen disk.old ≡ Some content → IsErrOf result (JournalError.NotAJournal offset)
        → (17 < length content) × LacksHeader content offset }
    ensures causes { IfErr result (λ cause.
        (cause ≡ JournalError.NotAJournal 0) ⊎ (cause ≡ JournalError.DiskFault)) }
    ensures stays { D.same_disk disk.old disk.new }
    ensures counts { CountsDiskFaults result (D.faults disk.old) (D.faults disk.new) }
    ensures within { CoversCalls (D.budget disk.old) 5 17 → result ≢ Err JournalError.DiskFault }
    ensures spends { SpendsCalls 5 17 (D.budget disk.old) (D.budget disk.new) }
{
    let size = disk.len()?;
    if size > 17 {
        if !has_header(disk)? {
            return Err(JournalError::NotAJournal(0));
        }
    } else if !is_empty_journal(disk, size)? {
        write_empty_journal(disk)?;
    }
    Ok(())
}

fn has_header<D: Disk>(disk: &mut D) -> Result<bool, Failed>
    requires { IfSome (D.seen disk.old) (λ content. 16 ≤ length content) }
    ensures value { (content : List ℕ) → D.seen disk.old ≡ Some content
        → IfOk result (λ has. IsTrue has ↔ (take 16 content ≡ header)) }
    ensures only_reads { OnlyReads D.same_disk D.seen D.may_leave D.moment D.left_since
        disk.old disk.new }
    ensures counts { CountsFaults result (D.faults disk.old) (D.faults disk.new) }
    ensures within { CoversCalls (D.budget disk.old) 1 0 → IsOk result }
    ensures spends { SpendsCalls 1 0 (D.budget disk.old) (D.budget disk.new) }
{
    let mut front = [0u8; 16];
    disk.read(0, &mut front)?;
    Ok(front == HEADER)
}

fn is_empty_journal<D: Disk>(disk: &mut D, size: u64) -> Result<bool, Failed>
    requires sized { IfSome (D.seen disk.old) (λ content. size ≡ length content) }
    requires short { size ≤ 17 }
    ensures value { (content : List ℕ) → D.seen disk.old ≡ Some content
        → IfOk result (λ is. IsTrue is ↔ (content ≡ empty_journal)) }
    ensures only_reads { OnlyReads D.same_disk D.seen D.may_leave D.moment D.left_since
        disk.old disk.new }
    ensures counts { CountsFaults result (D.faults disk.old) (D.faults disk.new) }
    ensures within { CoversCalls (D.budget disk.old) 2 0 → IsOk result }
    ensures spends { SpendsCalls 2 0 (D.budget disk.old) (D.budget disk.new) }
{
    if size < 17 {
        return Ok(false);
    }
    if !has_header(disk)? {
        return Ok(false);
    }
    Ok(read_gate(disk, 16)? == CLOSED_GATE)
}

fn write_empty_journal<D: Disk>(disk: &mut D) -> Result<(), Failed>
    ensures written { (content : List ℕ) → D.seen disk.old ≡ Some content → length content ≤ 17
        → OnOk result (D.seen disk.new ≡ Some empty_journal) }
    ensures durable { (content : List ℕ) → D.seen disk.old ≡ Some content
        → OnOk result (IfSome (D.seen disk.new) (λ now. Only now (D.may_leave disk.new))) }
    ensures any_moment { (content : List ℕ)
        → D.seen disk.old ≡ Some content → length content ≤ 17 → Only content (D.may_leave disk.old)
        → LeavesOnly D.moment D.left_since disk.old disk.new (λ image. length image ≤ 17) }
    ensures remains { IfSome (D.seen disk.old) (D.may_leave disk.old)
        → IfSome (D.seen disk.new) (D.may_leave disk.new) }
    ensures stays { D.same_disk disk.old disk.new }
    ensures counts { CountsFaults result (D.faults disk.old) (D.faults disk.new) }
    ensures within { CoversCalls (D.budget disk.old) 2 17 → IsOk result }
    ensures spends { SpendsCalls 2 17 (D.budget disk.old) (D.budget disk.new) }
{
    write_through(disk, 0, &EMPTY_JOURNAL)?;
    Ok(())
}
