//! Writing through to the disk.
ghost use Rattle.std.specs.Prelude.{◌≡◌, ◌+◌, ◌<◌, ◌≤◌, ◌^◌, List, ℕ, length, IsOk, OnOk, IfSome};
ghost use Rattle.mx_outside.specs.Told.{WhereTold};
ghost use Rattle.mx_outside.specs.Budget.{CoversCalls, SpendsCalls};
ghost use Rattle.mx_outside.specs.Disk.{Only, Torn, Follows, LeavesOnly, CountsFaults, put_at};
ghost use Rattle.mx_journal.specs.Calls.{IsTornFrom};

use mx_outside::{Disk, Failed};

/// Writes the piece and syncs. A crash on the way leaves the write torn, or not made.
pub(crate) fn write_through<D: Disk>(disk: &mut D, at: u64, piece: &[u8]) -> Result<(), Failed>
    requires { IfSome (D.seen disk.old) (λ content. at ≤ length content) }
    ensures written { WhereTold (D.seen disk.old) (D.seen disk.new)
        (λ old new. OnOk result (new ≡ put_at at piece.now old)) }
    ensures durable { WhereTold (D.seen disk.old) (D.seen disk.new)
        (λ _ new. OnOk result (Only new (D.may_leave disk.new))) }
    ensures any_moment { LeavesOnly D.moment D.left_since disk.old disk.new
        (IsTornFrom (D.may_leave disk.old) at (length piece.now)) }
    ensures remains { IfSome (D.seen disk.old) (D.may_leave disk.old)
        → IfSome (D.seen disk.new) (D.may_leave disk.new) }
    ensures bounded { OnOk result (at + length piece.now < 2 ^ 63) }
    ensures stays { D.same_disk disk.old disk.new }
    ensures counts { CountsFaults result (D.faults disk.old) (D.faults disk.new) }
    ensures within { CoversCalls (D.budget disk.old) 2 (length piece.now)
        → at + length piece.now < 2 ^ 63 → IsOk result }
    ensures spends { SpendsCalls 2 (length piece.now) (D.budget disk.old) (D.budget disk.new) }
{
    disk.write_at(at, piece)?;
    disk.sync()?;
    Ok(())
}
