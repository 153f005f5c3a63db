ghost use Rattle.std.specs.Prelude.{◌≡◌, ◌+◌, ◌^◌, ◌<◌, ◌≤◌, ℕ, List, Option, length, IsOk, IsErr};
ghost use Rattle.std.specs.Prelude.{IfSome, IfOk, OnOk, OnErr};
ghost use Rattle.mx_outside.specs.Told.{WhereTold};
ghost use Rattle.mx_outside.specs.Budget.{Budget, Covers, SpendsAtMost};

use crate::fault::Failed;

/// A file on a disk that may stop at any moment.
///
/// Places and lengths are in bytes. Between two syncs a crash may leave any bytes in each range
/// that was written and in the part past the old end, any length from the least to the greatest
/// since the last sync, and in a part that was cut off any bytes; other bytes stay. The count of
/// faults rises in a call that fails, and in no other. Within the budget no call fails, save a
/// write past the greatest length.
pub trait Disk {
    ghost use Rattle.mx_outside.specs.Disk.{Wrote, WasCut, IsRead, Torn, Shortened, Follows};
    ghost use Rattle.mx_outside.specs.Disk.{NoMore, SameImages, Only, Elapses, CountsFaults};

    // What a read gives now, where it is told.
    ghost seen: { Self → Option (List ℕ) };

    // Which images a crash now may leave.
    ghost may_leave: { Self → List ℕ → Type 0 };

    // A number that never falls.
    ghost moment: { Self → ℕ };

    // Which images a crash at some moment since that one might have left.
    ghost left_since: { Self → ℕ → List ℕ → Type 0 };

    ghost faults: { Self → ℕ };

    // For how many bytes and calls it can't fail.
    ghost budget: { Self → Budget };

    // Whether it is the same disk. Where it is lent, it is the same loan.
    ghost same_disk: { Self → Self → Type 0 };

    /// The length in bytes, at most 2^63 - 1.
    fn len(&mut self) -> Result<u64, Failed>
        ensures length { WhereTold (seen self.old) (seen self.new)
            (λ old _. IfOk result (λ n. n ≡ length old)) }
        ensures bounded { IfOk result (λ n. n < 2 ^ 63) }
        ensures same { WhereTold (seen self.old) (seen self.new) (λ old new. new ≡ old) }
        ensures crash { SameImages (may_leave self.old) (may_leave self.new) }
        ensures time { Elapses (moment self.old) (moment self.new)
            (left_since self.old) (left_since self.new) (may_leave self.new) }
        ensures possible { OnOk result (IfSome (seen self.new) (may_leave self.new)) }
        ensures remains { IfSome (seen self.old) (may_leave self.old)
            → IfSome (seen self.new) (may_leave self.new) }
        ensures stays { same_disk self.old self.new }
        ensures counts { CountsFaults result (faults self.old) (faults self.new) }
        ensures within { Covers (budget self.old) 0 → IsOk result }
        ensures spends { SpendsAtMost 0 (budget self.old) (budget self.new) };

    /// Fills the buffer with the bytes from `at` on, which all lie within the length.
    fn read(&mut self, at: u64, into: &mut [u8]) -> Result<(), Failed>
        requires { IfSome (seen self.old) (λ content. at + length into.old ≤ length content) }
        ensures bytes { WhereTold (seen self.old) (seen self.new)
            (λ old _. IsRead result at into.new old) }
        ensures same { WhereTold (seen self.old) (seen self.new) (λ old new. new ≡ old) }
        ensures crash { SameImages (may_leave self.old) (may_leave self.new) }
        ensures time { Elapses (moment self.old) (moment self.new)
            (left_since self.old) (left_since self.new) (may_leave self.new) }
        ensures possible { OnOk result (IfSome (seen self.new) (may_leave self.new)) }
        ensures remains { IfSome (seen self.old) (may_leave self.old)
            → IfSome (seen self.new) (may_leave self.new) }
        ensures stays { same_disk self.old self.new }
        ensures counts { CountsFaults result (faults self.old) (faults self.new) }
        ensures within { Covers (budget self.old) 0 → IsOk result }
        ensures spends { SpendsAtMost 0 (budget self.old) (budget self.new) };

    /// Writes the piece at `at`, which is at most the length. A piece that would make the disk
    /// longer than 2^63 - 1 bytes fails. After a failure its range may hold any bytes.
    fn write_at(&mut self, at: u64, piece: &[u8]) -> Result<(), Failed>
        requires { IfSome (seen self.old) (λ content. at ≤ length content) }
        ensures written { WhereTold (seen self.old) (seen self.new)
            (λ old new. Wrote result at piece.now old new) }
        ensures bounded { 2 ^ 63 ≤ at + length piece.now → IsErr result }
        ensures crash { Follows (Torn at (length piece.now))
            (may_leave self.old) (may_leave self.new) }
        ensures time { Elapses (moment self.old) (moment self.new)
            (left_since self.old) (left_since self.new) (may_leave self.new) }
        ensures possible { OnOk result (IfSome (seen self.new) (may_leave self.new)) }
        ensures remains { IfSome (seen self.old) (may_leave self.old)
            → IfSome (seen self.new) (may_leave self.new) }
        ensures stays { same_disk self.old self.new }
        ensures counts { CountsFaults result (faults self.old) (faults self.new) }
        ensures within { Covers (budget self.old) (length piece.now)
            → at + length piece.now < 2 ^ 63 → IsOk result }
        ensures spends { SpendsAtMost (length piece.now) (budget self.old) (budget self.new) };

    /// Cuts the disk to the length `to`, which is at most what it has. After a failure it may
    /// have any length between, with any bytes behind the first `to`.
    fn cut(&mut self, to: u64) -> Result<(), Failed>
        requires { IfSome (seen self.old) (λ content. to ≤ length content) }
        ensures shortened { WhereTold (seen self.old) (seen self.new)
            (λ old new. WasCut result to old new) }
        ensures crash { Follows (Shortened to) (may_leave self.old) (may_leave self.new) }
        ensures time { Elapses (moment self.old) (moment self.new)
            (left_since self.old) (left_since self.new) (may_leave self.new) }
        ensures possible { OnOk result (IfSome (seen self.new) (may_leave self.new)) }
        ensures remains { IfSome (seen self.old) (may_leave self.old)
            → IfSome (seen self.new) (may_leave self.new) }
        ensures stays { same_disk self.old self.new }
        ensures counts { CountsFaults result (faults self.old) (faults self.new) }
        ensures within { Covers (budget self.old) 0 → IsOk result }
        ensures spends { SpendsAtMost 0 (budget self.old) (budget self.new) };

    /// Makes what a read gives now what a crash leaves. A failure leaves the images that a crash
    /// may leave as they were.
    fn sync(&mut self) -> Result<(), Failed>
        ensures same { WhereTold (seen self.old) (seen self.new) (λ old new. new ≡ old) }
        ensures durable { WhereTold (seen self.old) (seen self.new)
            (λ _ new. OnOk result (Only new (may_leave self.new))) }
        ensures crash { NoMore (may_leave self.old) (may_leave self.new) }
        ensures unchanged { OnErr result (SameImages (may_leave self.old) (may_leave self.new)) }
        ensures time { Elapses (moment self.old) (moment self.new)
            (left_since self.old) (left_since self.new) (may_leave self.new) }
        ensures possible { OnOk result (IfSome (seen self.new) (may_leave self.new)) }
        ensures remains { IfSome (seen self.old) (may_leave self.old)
            → IfSome (seen self.new) (may_leave self.new) }
        ensures stays { same_disk self.old self.new }
        ensures counts { CountsFaults result (faults self.old) (faults self.new) }
        ensures within { Covers (budget self.old) 0 → IsOk result }
        ensures spends { SpendsAtMost 0 (budget self.old) (budget self.new) };

    // A crash since an earlier moment might have left what it may leave now.
    ghost counts_now: { (disk : Self) (t : ℕ) (image : List ℕ)
        → t ≤ moment disk → may_leave disk image → left_since disk t image };

    // A crash since now leaves no other image than one that it may leave now.
    ghost only_now: { (disk : Self) (image : List ℕ)
        → left_since disk (moment disk) image → may_leave disk image };

    ghost same_disk_now: { (disk : Self) → same_disk disk disk };

    ghost same_disk_then: { (a b c : Self)
        → same_disk a b → same_disk b c → same_disk a c };
}

impl<D: Disk> Disk for &mut D {
    ghost use Rattle.std.specs.Prelude.{◌≡◌, refl};
    ghost use Rattle.std.proofs.Common.{◌∙◌};

    ghost seen = { λ d. D.seen d.now };

    ghost may_leave = { λ d. D.may_leave d.now };

    ghost moment = { λ d. D.moment d.now };

    ghost left_since = { λ d. D.left_since d.now };

    ghost faults = { λ d. D.faults d.now };

    ghost budget = { λ d. D.budget d.now };

    ghost same_disk = { λ old new.
        (new.ghost_name ≡ old.ghost_name) × D.same_disk old.now new.now };

    fn len(&mut self) -> Result<u64, Failed> {
        (**self).len()
    }

    fn read(&mut self, at: u64, into: &mut [u8]) -> Result<(), Failed> {
        (**self).read(at, into)
    }

    fn write_at(&mut self, at: u64, piece: &[u8]) -> Result<(), Failed> {
        (**self).write_at(at, piece)
    }

    fn cut(&mut self, to: u64) -> Result<(), Failed> {
        (**self).cut(to)
    }

    fn sync(&mut self) -> Result<(), Failed> {
        (**self).sync()
    }

    ghost counts_now = { λ d. D.counts_now d.now };

    ghost only_now = { λ d. D.only_now d.now };

    ghost same_disk_now = { λ d. (refl, D.same_disk_now d.now) };

    ghost same_disk_then = { λ a b c first second.
        (second.0 ∙ first.0, D.same_disk_then a.now b.now c.now first.1 second.1) };
}
