ghost use Rattle.std.specs.Prelude.{◌≡◌, ◌+◌, ◌^◌, ◌<◌, ◌≤◌, length, IfSome, IfOk, IsOk, IsErr};
ghost use Rattle.std.specs.Prelude.{OnOk, OnErr};

use crate::disk::Disk;
use crate::fault::Failed;
use crate::memory::failing::FailingCalls;
use std::marker::Model;

/// A disk of which the calls that are listed fail. Such a call changes nothing below.
#[derive(Drop)]
pub struct FailingDisk<D> {
    disk: D,
    failing: FailingCalls,
}

impl<D> Model for FailingDisk<D> {
    ghost use Rattle.mx_outside.specs.Failing.{Wrapped};

    ghost Value = { Wrapped D };

    ghost view = { λ d. record {
      below = d.disk;
      failing = d.failing.numbers.items;
      calls = d.failing.calls;
      faults = d.failing.faults;
    } };
}

impl<D> FailingDisk<D> {
    /// Wraps `disk`. The calls with these numbers, from 1, are to fail.
    pub fn new(disk: D, numbers: Vec<u64>) -> FailingDisk<D>
        ensures { result ≡ record { below = disk; failing = numbers.items; calls = 0; faults = 0 } }
    {
        FailingDisk {
            disk,
            failing: FailingCalls::new(numbers),
        }
    }

    /// The disk that is wrapped.
    pub fn below(&self) -> &D
        ensures { result.now ≡ self.now.below }
    {
        &self.disk
    }
}

impl<D: Disk> Disk for FailingDisk<D> {
    ghost use Rattle.mx_outside.specs.Told.{WhereTold};
    ghost use Rattle.mx_outside.specs.Budget.{Covers, SpendsAtMost};
    ghost use Rattle.mx_outside.specs.Disk.{Wrote, WasCut, IsRead, Torn, Shortened, Follows};
    ghost use Rattle.mx_outside.specs.Disk.{NoMore, SameImages, Only, Elapses, CountsFaults};
    ghost use Rattle.mx_outside.specs.Failing.{FailsAsListed, budget_below};

    ghost seen = { λ d. D.seen d.below };

    ghost may_leave = { λ d. D.may_leave d.below };

    ghost moment = { λ d. D.moment d.below };

    ghost left_since = { λ d. D.left_since d.below };

    ghost faults = { λ d. d.faults + D.faults d.below };

    ghost budget = { λ d. budget_below d.failing (D.budget d.below) };

    ghost same_disk = { λ old new. D.same_disk old.below new.below };

    /// Fails where the number of the call is listed, and else answers as the disk below. So do the
    /// other calls.
    fn len(&mut self) -> Result<u64, Failed>
        ensures length { WhereTold (D.seen self.old.below) (D.seen self.new.below)
            (λ old _. IfOk result (λ n. n ≡ length old)) }
        ensures bounded { IfOk result (λ n. n < 2 ^ 63) }
        ensures same { WhereTold (D.seen self.old.below) (D.seen self.new.below)
            (λ old new. new ≡ old) }
        ensures crash { SameImages (D.may_leave self.old.below) (D.may_leave self.new.below) }
        ensures time { Elapses (D.moment self.old.below) (D.moment self.new.below)
            (D.left_since self.old.below) (D.left_since self.new.below)
            (D.may_leave self.new.below) }
        ensures possible { OnOk result
            (IfSome (D.seen self.new.below) (D.may_leave self.new.below)) }
        ensures remains { IfSome (D.seen self.old.below) (D.may_leave self.old.below)
            → IfSome (D.seen self.new.below) (D.may_leave self.new.below) }
        ensures stays { D.same_disk self.old.below self.new.below }
        ensures counts { CountsFaults result
            (self.old.faults + D.faults self.old.below)
            (self.new.faults + D.faults self.new.below) }
        ensures within { Covers (budget_below self.old.failing (D.budget self.old.below)) 0
            → IsOk result }
        ensures spends { SpendsAtMost 0 (budget_below self.old.failing (D.budget self.old.below))
            (budget_below self.new.failing (D.budget self.new.below)) }
        ensures failing { FailsAsListed D.faults result self.old self.new }
    {
        if self.failing.fails_next() {
            return Err(Failed);
        }
        self.disk.len()
    }

    fn read(&mut self, at: u64, into: &mut [u8]) -> Result<(), Failed>
        requires { IfSome (D.seen self.old.below)
            (λ content. at + length into.old ≤ length content) }
        ensures bytes { WhereTold (D.seen self.old.below) (D.seen self.new.below)
            (λ old _. IsRead result at into.new old) }
        ensures same { WhereTold (D.seen self.old.below) (D.seen self.new.below)
            (λ old new. new ≡ old) }
        ensures crash { SameImages (D.may_leave self.old.below) (D.may_leave self.new.below) }
        ensures time { Elapses (D.moment self.old.below) (D.moment self.new.below)
            (D.left_since self.old.below) (D.left_since self.new.below)
            (D.may_leave self.new.below) }
        ensures possible { OnOk result
            (IfSome (D.seen self.new.below) (D.may_leave self.new.below)) }
        ensures remains { IfSome (D.seen self.old.below) (D.may_leave self.old.below)
            → IfSome (D.seen self.new.below) (D.may_leave self.new.below) }
        ensures stays { D.same_disk self.old.below self.new.below }
        ensures counts { CountsFaults result
            (self.old.faults + D.faults self.old.below)
            (self.new.faults + D.faults self.new.below) }
        ensures within { Covers (budget_below self.old.failing (D.budget self.old.below)) 0
            → IsOk result }
        ensures spends { SpendsAtMost 0 (budget_below self.old.failing (D.budget self.old.below))
            (budget_below self.new.failing (D.budget self.new.below)) }
        ensures failing { FailsAsListed D.faults result self.old self.new }
    {
        if self.failing.fails_next() {
            return Err(Failed);
        }
        self.disk.read(at, into)
    }

    fn write_at(&mut self, at: u64, piece: &[u8]) -> Result<(), Failed>
        requires { IfSome (D.seen self.old.below) (λ content. at ≤ length content) }
        ensures written { WhereTold (D.seen self.old.below) (D.seen self.new.below)
            (λ old new. Wrote result at piece.now old new) }
        ensures bounded { 2 ^ 63 ≤ at + length piece.now → IsErr result }
        ensures crash { Follows (Torn at (length piece.now))
            (D.may_leave self.old.below) (D.may_leave self.new.below) }
        ensures time { Elapses (D.moment self.old.below) (D.moment self.new.below)
            (D.left_since self.old.below) (D.left_since self.new.below)
            (D.may_leave self.new.below) }
        ensures possible { OnOk result
            (IfSome (D.seen self.new.below) (D.may_leave self.new.below)) }
        ensures remains { IfSome (D.seen self.old.below) (D.may_leave self.old.below)
            → IfSome (D.seen self.new.below) (D.may_leave self.new.below) }
        ensures stays { D.same_disk self.old.below self.new.below }
        ensures counts { CountsFaults result
            (self.old.faults + D.faults self.old.below)
            (self.new.faults + D.faults self.new.below) }
        ensures within { Covers (budget_below self.old.failing (D.budget self.old.below))
            (length piece.now) → at + length piece.now < 2 ^ 63 → IsOk result }
        ensures spends { SpendsAtMost (length piece.now)
            (budget_below self.old.failing (D.budget self.old.below))
            (budget_below self.new.failing (D.budget self.new.below)) }
        ensures failing { FailsAsListed D.faults result self.old self.new }
    {
        if self.failing.fails_next() {
            return Err(Failed);
        }
        self.disk.write_at(at, piece)
    }

    fn cut(&mut self, to: u64) -> Result<(), Failed>
        requires { IfSome (D.seen self.old.below) (λ content. to ≤ length content) }
        ensures shortened { WhereTold (D.seen self.old.below) (D.seen self.new.below)
            (λ old new. WasCut result to old new) }
        ensures crash { Follows (Shortened to)
            (D.may_leave self.old.below) (D.may_leave self.new.below) }
        ensures time { Elapses (D.moment self.old.below) (D.moment self.new.below)
            (D.left_since self.old.below) (D.left_since self.new.below)
            (D.may_leave self.new.below) }
        ensures possible { OnOk result
            (IfSome (D.seen self.new.below) (D.may_leave self.new.below)) }
        ensures remains { IfSome (D.seen self.old.below) (D.may_leave self.old.below)
            → IfSome (D.seen self.new.below) (D.may_leave self.new.below) }
        ensures stays { D.same_disk self.old.below self.new.below }
        ensures counts { CountsFaults result
            (self.old.faults + D.faults self.old.below)
            (self.new.faults + D.faults self.new.below) }
        ensures within { Covers (budget_below self.old.failing (D.budget self.old.below)) 0
            → IsOk result }
        ensures spends { SpendsAtMost 0 (budget_below self.old.failing (D.budget self.old.below))
            (budget_below self.new.failing (D.budget self.new.below)) }
        ensures failing { FailsAsListed D.faults result self.old self.new }
    {
        if self.failing.fails_next() {
            return Err(Failed);
        }
        self.disk.cut(to)
    }

    fn sync(&mut self) -> Result<(), Failed>
        ensures same { WhereTold (D.seen self.old.below) (D.seen self.new.below)
            (λ old new. new ≡ old) }
        ensures durable { WhereTold (D.seen self.old.below) (D.seen self.new.below)
            (λ _ new. OnOk result (Only new (D.may_leave self.new.below))) }
        ensures crash { NoMore (D.may_leave self.old.below) (D.may_leave self.new.below) }
        ensures unchanged { OnErr result
            (SameImages (D.may_leave self.old.below) (D.may_leave self.new.below)) }
        ensures time { Elapses (D.moment self.old.below) (D.moment self.new.below)
            (D.left_since self.old.below) (D.left_since self.new.below)
            (D.may_leave self.new.below) }
        ensures possible { OnOk result
            (IfSome (D.seen self.new.below) (D.may_leave self.new.below)) }
        ensures remains { IfSome (D.seen self.old.below) (D.may_leave self.old.below)
            → IfSome (D.seen self.new.below) (D.may_leave self.new.below) }
        ensures stays { D.same_disk self.old.below self.new.below }
        ensures counts { CountsFaults result
            (self.old.faults + D.faults self.old.below)
            (self.new.faults + D.faults self.new.below) }
        ensures within { Covers (budget_below self.old.failing (D.budget self.old.below)) 0
            → IsOk result }
        ensures spends { SpendsAtMost 0 (budget_below self.old.failing (D.budget self.old.below))
            (budget_below self.new.failing (D.budget self.new.below)) }
        ensures failing { FailsAsListed D.faults result self.old self.new }
    {
        if self.failing.fails_next() {
            return Err(Failed);
        }
        self.disk.sync()
    }

    ghost counts_now = { λ d. D.counts_now d.below };

    ghost only_now = { λ d. D.only_now d.below };

    ghost same_disk_now = { λ d. D.same_disk_now d.below };

    ghost same_disk_then = { λ a b c. D.same_disk_then a.below b.below c.below };
}
