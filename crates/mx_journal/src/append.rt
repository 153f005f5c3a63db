//! Adding one record.
ghost use Rattle.std.specs.Prelude.{◌≡◌, ◌+◌, ◌<◌, ◌≤◌, ◌^◌, List, [], ◌∷◌, ◌++◌, ℕ, length, IsOk};
ghost use Rattle.std.specs.Prelude.{OnOk, IfSome};
ghost use Rattle.mx_outside.specs.Budget.{CoversCalls, SpendsCalls};
ghost use Rattle.mx_outside.specs.Disk.{Only, LeavesOnly, CountsFaults};
ghost use Rattle.mx_journal.specs.Image.{IsPayload, StandsForEither};
ghost use Rattle.mx_journal.specs.Journal.{HasClosedGate, RestsAt};
ghost use Rattle.mx_journal.specs.Held.{staged_bytes};

use crate::format::OPEN_GATE;
use crate::write::write_through;
use mx_outside::{Disk, Failed};

/// Adds a record at a closed gate, of which `staged` has the body and a closed gate behind it.
///
/// The gate is opened by a write of its own, once all behind it is on the disk. Whatever a crash
/// left there before stays behind a closed gate until then.
pub(crate) fn append<D: Disk>(disk: &mut D, gate: u64, staged: &[u8]) -> Result<(), Failed>
    requires inside { IfSome (D.seen disk.old) (λ content. gate + 1 ≤ length content) }
    requires bounded { gate < 2 ^ 63 }
    ensures acknowledged { (payloads : List (List ℕ)) (payload : List ℕ)
        → RestsAt (D.seen disk.old) (D.may_leave disk.old) gate payloads
        → IsPayload payload → staged.now ≡ staged_bytes payload
        → OnOk result (RestsAt (D.seen disk.new) (D.may_leave disk.new)
        (gate + length staged.now) (payloads ++ payload ∷ [])) }
    ensures any_moment { (payloads : List (List ℕ)) (payload : List ℕ)
        → RestsAt (D.seen disk.old) (D.may_leave disk.old) gate payloads
        → IsPayload payload → staged.now ≡ staged_bytes payload
        → LeavesOnly D.moment D.left_since disk.old disk.new
        (StandsForEither payloads (payloads ++ payload ∷ [])) }
    ensures gate_closed { (payload : List ℕ) → staged.now ≡ staged_bytes payload
        → OnOk result (IfSome (D.seen disk.new)
        (λ content. HasClosedGate content (gate + length staged.now))) }
    ensures settled { OnOk result (IfSome (D.seen disk.new)
        (λ content. Only content (D.may_leave disk.new))) }
    ensures remains { IfSome (D.seen disk.old) (D.may_leave disk.old)
        → IfSome (D.seen disk.new) (D.may_leave disk.new) }
    ensures bounded { OnOk result (gate + 1 + length staged.now < 2 ^ 63) }
    ensures stays { D.same_disk disk.old disk.new }
    ensures counts { CountsFaults result (D.faults disk.old) (D.faults disk.new) }
    ensures within { CoversCalls (D.budget disk.old) 4 (length staged.now + 1)
        → gate + 1 + length staged.now < 2 ^ 63 → IsOk result }
    ensures spends { SpendsCalls 4 (length staged.now + 1) (D.budget disk.old) (D.budget disk.new) }
{
    write_through(disk, gate + 1, staged)?;
    write_through(disk, gate, &[OPEN_GATE])?;
    Ok(())
}
