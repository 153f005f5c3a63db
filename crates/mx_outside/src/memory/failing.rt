ghost use Rattle.std.specs.Prelude.{◌≡◌, ◌≢◌, ◌<◌, ◌≤◌, ◌↔◌, IsTrue, Contains, length};
ghost use Rattle.std.specs.Prelude.{if◌then◌else◌};
ghost use Rattle.mx_outside.specs.Told.{raised, Rose};

use crate::sink::{Put, Sink};
use crate::source::{Got, Source};
use std::marker::Model;

/// The numbers of the calls that fail, from 1, and how many calls were made and failed.
#[derive(Drop)]
pub(crate) struct FailingCalls {
    pub(crate) numbers: Vec<u64>,
    pub(crate) calls: u64,
    pub(crate) faults: u64,
}

impl FailingCalls {
    pub(crate) fn new(numbers: Vec<u64>) -> FailingCalls
        ensures { result ≡ record { numbers = numbers; calls = 0; faults = 0 } }
    {
        FailingCalls {
            numbers,
            calls: 0,
            faults: 0,
        }
    }

    /// Counts one more call, and answers whether it fails.
    pub(crate) fn fails_next(&mut self) -> bool
        ensures fails { IsTrue result ↔ Contains self.old.numbers.items (raised self.old.calls) }
        ensures counts { self.new ≡ record self.old {
          calls = raised self.old.calls;
          faults = (if result then raised self.old.faults else self.old.faults);
        } }
        ensures rises { self.old.faults ≤ self.new.faults }
    {
        self.calls = self.calls.saturating_add(1);
        let fails = self.numbers.contains(&self.calls);
        if fails {
            self.faults = self.faults.saturating_add(1);
        }
        fails
    }
}

/// A source of which the calls that are listed fail. Such a call changes nothing below.
#[derive(Drop)]
pub struct FailingSource<S> {
    source: S,
    failing: FailingCalls,
}

impl<S> Model for FailingSource<S> {
    ghost use Rattle.mx_outside.specs.Failing.{Wrapped};

    ghost Value = { Wrapped S };

    ghost view = { λ s. record {
      below = s.source;
      failing = s.failing.numbers.items;
      calls = s.failing.calls;
      faults = s.failing.faults;
    } };
}

impl<S> FailingSource<S> {
    /// Wraps `source`. The calls of `read` with these numbers, from 1, are to fail.
    pub fn new(source: S, numbers: Vec<u64>) -> FailingSource<S>
        ensures { result ≡
            record { below = source; failing = numbers.items; calls = 0; faults = 0 } }
    {
        FailingSource {
            source,
            failing: FailingCalls::new(numbers),
        }
    }

    /// The source that is wrapped.
    pub fn below(&self) -> &S
        ensures { result.now ≡ self.now.below }
    {
        &self.source
    }
}

impl<S: Source> Source for FailingSource<S> {
    ghost use Rattle.std.specs.Prelude.{◌+◌};
    ghost use Rattle.mx_outside.specs.Told.{WhereTold, Rose};
    ghost use Rattle.mx_outside.specs.Outside.{IsGiven, GivesBytes};
    ghost use Rattle.mx_outside.specs.Failing.{FailsNext, FailsHere, CountsCall, never_fails_below};

    ghost left = { λ s. S.left s.below };

    ghost faults = { λ s. s.faults + S.faults s.below };

    ghost never_fails = { λ s. never_fails_below s.failing (S.never_fails s.below) };

    /// Fails where the number of the call is listed, and else answers as the source below.
    fn read(&mut self, into: &mut [u8]) -> Got
        requires { 0 < length into.old }
        ensures given { IsGiven result (length into.old) }
        ensures bytes { WhereTold (S.left self.old.below) (S.left self.new.below)
            (GivesBytes result into.new) }
        ensures count { self.old.faults + S.faults self.old.below
            ≤ self.new.faults + S.faults self.new.below }
        ensures failed { result ≡ Got.Failed
            → Rose (self.old.faults + S.faults self.old.below)
            (self.new.faults + S.faults self.new.below) }
        ensures steady { result ≢ Got.Failed
            → self.new.faults + S.faults self.new.below
            ≡ self.old.faults + S.faults self.old.below }
        ensures sure { IsTrue (never_fails_below self.old.failing (S.never_fails self.old.below))
            → result ≢ Got.Failed }
        ensures still { IsTrue (never_fails_below self.old.failing (S.never_fails self.old.below))
            → IsTrue (never_fails_below self.new.failing (S.never_fails self.new.below)) }

        // A call that is listed fails here, and any other fails only below.
        ensures counts { CountsCall self.old self.new }
        ensures listed { FailsNext self.old → result ≡ Got.Failed }
        ensures here { FailsNext self.old → FailsHere self.old self.new }
        ensures unlisted { (FailsNext self.old → ⊥) → self.new.faults ≡ self.old.faults }
        ensures below { (FailsNext self.old → ⊥) → result ≡ Got.Failed
            → Rose (S.faults self.old.below) (S.faults self.new.below) }
    {
        if self.failing.fails_next() {
            return Got::Failed;
        }
        self.source.read(into)
    }
}

/// A sink of which the calls that are listed fail. Such a call changes nothing below.
#[derive(Drop)]
pub struct FailingSink<K> {
    sink: K,
    failing: FailingCalls,
}

impl<K> Model for FailingSink<K> {
    ghost use Rattle.mx_outside.specs.Failing.{Wrapped};

    ghost Value = { Wrapped K };

    ghost view = { λ s. record {
      below = s.sink;
      failing = s.failing.numbers.items;
      calls = s.failing.calls;
      faults = s.failing.faults;
    } };
}

impl<K> FailingSink<K> {
    /// Wraps `sink`. The calls of `write` with these numbers, from 1, are to fail.
    pub fn new(sink: K, numbers: Vec<u64>) -> FailingSink<K>
        ensures { result ≡ record { below = sink; failing = numbers.items; calls = 0; faults = 0 } }
    {
        FailingSink {
            sink,
            failing: FailingCalls::new(numbers),
        }
    }

    /// The sink that is wrapped.
    pub fn below(&self) -> &K
        ensures { result.now ≡ self.now.below }
    {
        &self.sink
    }
}

impl<K: Sink> Sink for FailingSink<K> {
    ghost use Rattle.std.specs.Prelude.{◌+◌};
    ghost use Rattle.mx_outside.specs.Told.{WhereTold, Rose};
    ghost use Rattle.mx_outside.specs.Budget.{Covers, SpendsAtMost};
    ghost use Rattle.mx_outside.specs.Outside.{IsMoved, Takes, moved_count};
    ghost use Rattle.mx_outside.specs.Failing.{FailsNext, FailsHere, CountsCall, budget_below};

    ghost taken = { λ s. K.taken s.below };

    ghost faults = { λ s. s.faults + K.faults s.below };

    ghost budget = { λ s. budget_below s.failing (K.budget s.below) };

    /// Fails where the number of the call is listed, and else answers as the sink below.
    fn write(&mut self, piece: &[u8]) -> Put
        requires { 0 < length piece.now }
        ensures moved { IsMoved result (length piece.now) }
        ensures bytes { WhereTold (K.taken self.old.below) (K.taken self.new.below)
            (Takes result piece.now) }
        ensures count { self.old.faults + K.faults self.old.below
            ≤ self.new.faults + K.faults self.new.below }
        ensures failed { result ≡ Put.Failed
            → Rose (self.old.faults + K.faults self.old.below)
            (self.new.faults + K.faults self.new.below) }
        ensures steady { result ≢ Put.Failed
            → self.new.faults + K.faults self.new.below
            ≡ self.old.faults + K.faults self.old.below }
        ensures within { Covers (budget_below self.old.failing (K.budget self.old.below))
            (length piece.now)
            → result ≢ Put.Failed }
        ensures spends { SpendsAtMost (moved_count result)
            (budget_below self.old.failing (K.budget self.old.below))
            (budget_below self.new.failing (K.budget self.new.below)) }

        // A call that is listed fails here, and any other fails only below.
        ensures counts { CountsCall self.old self.new }
        ensures listed { FailsNext self.old → result ≡ Put.Failed }
        ensures here { FailsNext self.old → FailsHere self.old self.new }
        ensures unlisted { (FailsNext self.old → ⊥) → self.new.faults ≡ self.old.faults }
        ensures below { (FailsNext self.old → ⊥) → result ≡ Put.Failed
            → Rose (K.faults self.old.below) (K.faults self.new.below) }
    {
        if self.failing.fails_next() {
            return Put::Failed;
        }
        self.sink.write(piece)
    }
}
