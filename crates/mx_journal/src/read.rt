//! Reading one record at its gate.
ghost use Rattle.std.specs.Prelude.{◌≡◌, ◌≢◌, ◌+◌, ◌<◌, ◌≤◌, ◌^◌, List, ℕ, length, take, drop};
ghost use Rattle.std.specs.Prelude.{slice_index, vec_len, IsOk, IfOk, OnOk, IfSome, MatchOption};
ghost use Rattle.std.specs.Prelude.{true};
ghost use Rattle.mx_outside.specs.Budget.{CoversCalls, SpendsCalls};
ghost use Rattle.mx_outside.specs.Disk.{CountsFaults};
ghost use Rattle.mx_journal.specs.Image.{number_bytes};
ghost use Rattle.mx_journal.specs.Calls.{OnlyReads, CountsDiskFaults};
ghost use Rattle.mx_journal.specs.Fault.{LacksBody, HasBodyOf};
ghost use Rattle.mx_journal.specs.NextRecord.{Found};

use crate::JournalError;
use crate::format::{OPEN_GATE, PAYLOAD_LIMIT};
use mx_outside::{Disk, Failed};

/// Reads what stands at this gate. A record's payload takes the place of what `out` had.
pub(crate) fn read_record<D: Disk>(
    disk: &mut D,
    gate: u64,
    out: &mut Vec<u8>,
) -> Result<bool, JournalError>
    requires { gate < 2 ^ 63 }
    ensures found { (content : List ℕ) → D.seen disk.old ≡ Some content
        → Found result content gate out.new.items }
    ensures only_reads { OnlyReads D.same_disk D.seen D.may_leave D.moment D.left_since
        disk.old disk.new }
    ensures counts { CountsDiskFaults result (D.faults disk.old) (D.faults disk.new) }
    ensures bounded { result ≡ Ok true → gate + 5 + length out.new.items < 2 ^ 63 }
    ensures within { CoversCalls (D.budget disk.old) 4 0 → result ≢ Err JournalError.DiskFault }
    ensures spends { SpendsCalls 4 0 (D.budget disk.old) (D.budget disk.new) }
{
    let size = disk.len()?;
    if size <= gate {
        return Err(JournalError::NotAJournal(gate));
    }
    if read_gate(disk, gate)? != OPEN_GATE {
        return Ok(false);
    }
    let Some(length) = read_length(disk, gate + 1, size)? else {
        return Err(JournalError::NotAJournal(gate));
    };
    out.resize(length as usize, 0)?;
    read_payload(disk, gate + 5, out)?;
    Ok(true)
}

pub(crate) fn read_gate<D: Disk>(disk: &mut D, at: u64) -> Result<u8, Failed>
    requires { IfSome (D.seen disk.old) (λ content. at + 1 ≤ length content) }
    ensures value { (content : List ℕ) → D.seen disk.old ≡ Some content
        → IfOk result (λ gate. gate ≡ slice_index content at) }
    ensures only_reads { OnlyReads D.same_disk D.seen D.may_leave D.moment D.left_since
        disk.old disk.new }
    ensures counts { CountsFaults result (D.faults disk.old) (D.faults disk.new) }
    ensures within { CoversCalls (D.budget disk.old) 1 0 → IsOk result }
    ensures spends { SpendsCalls 1 0 (D.budget disk.old) (D.budget disk.new) }
{
    let mut gate = [0u8; 1];
    disk.read(at, &mut gate)?;
    Ok(gate[0])
}

/// The length of the payload of the record whose body stands here, if it is whole.
fn read_length<D: Disk>(disk: &mut D, at: u64, size: u64) -> Result<Option<u32>, Failed>
    requires sized { IfSome (D.seen disk.old) (λ content. size ≡ length content) }
    requires inside { at ≤ size }
    ensures value { (content : List ℕ) → D.seen disk.old ≡ Some content
        → IfOk result (λ length. MatchOption length
        (LacksBody (drop at content)) (HasBodyOf (drop at content))) }
    ensures bounded { IfOk result (λ length. IfSome length (λ n. at + 4 + n ≤ size)) }
    ensures only_reads { OnlyReads D.same_disk D.seen D.may_leave D.moment D.left_since
        disk.old disk.new }
    ensures counts { CountsFaults result (D.faults disk.old) (D.faults disk.new) }
    ensures within { CoversCalls (D.budget disk.old) 1 0 → IsOk result }
    ensures spends { SpendsCalls 1 0 (D.budget disk.old) (D.budget disk.new) }
{
    let left = size - at;
    if left < 4 {
        return Ok(None);
    }
    let length = read_number(disk, at)?;
    if length == 0 || length > PAYLOAD_LIMIT || left - 4 < u64::from(length) {
        return Ok(None);
    }
    Ok(Some(length))
}

fn read_number<D: Disk>(disk: &mut D, at: u64) -> Result<u32, Failed>
    requires { IfSome (D.seen disk.old) (λ content. at + 4 ≤ length content) }
    ensures value { (content : List ℕ) → D.seen disk.old ≡ Some content
        → IfOk result (λ n. number_bytes n ≡ take 4 (drop at content)) }
    ensures bounded { IfOk result (λ n. n < 2 ^ 32) }
    ensures only_reads { OnlyReads D.same_disk D.seen D.may_leave D.moment D.left_since
        disk.old disk.new }
    ensures counts { CountsFaults result (D.faults disk.old) (D.faults disk.new) }
    ensures within { CoversCalls (D.budget disk.old) 1 0 → IsOk result }
    ensures spends { SpendsCalls 1 0 (D.budget disk.old) (D.budget disk.new) }
{
    let mut bytes = [0u8; 4];
    disk.read(at, &mut bytes)?;
    Ok(number_of(&bytes))
}

/// The number that four bytes show, the lowest first.
fn number_of(bytes: &[u8]) -> u32
    requires { length bytes.now ≡ 4 }
    ensures { number_bytes result ≡ bytes.now }
{
    u32::from_le_bytes([bytes[0], bytes[1], bytes[2], bytes[3]])
}

/// Fills `out` with the bytes from here on.
fn read_payload<D: Disk>(disk: &mut D, at: u64, out: &mut Vec<u8>) -> Result<(), Failed>
    requires { IfSome (D.seen disk.old) (λ content. at + vec_len out.old ≤ length content) }
    ensures bytes { (content : List ℕ) → D.seen disk.old ≡ Some content
        → OnOk result (out.new.items ≡ take (vec_len out.old) (drop at content)) }
    ensures len { vec_len out.new ≡ vec_len out.old }
    ensures only_reads { OnlyReads D.same_disk D.seen D.may_leave D.moment D.left_since
        disk.old disk.new }
    ensures counts { CountsFaults result (D.faults disk.old) (D.faults disk.new) }
    ensures within { CoversCalls (D.budget disk.old) 1 0 → IsOk result }
    ensures spends { SpendsCalls 1 0 (D.budget disk.old) (D.budget disk.new) }
{
    disk.read(at, out.as_mut_slice())?;
    Ok(())
}
