ghost use Rattle.std.specs.Prelude.{◌≡◌, ◌≢◌, ◌<◌, ◌≤◌, ◌⊎◌, ℕ, List, length, Some, Err, IfErr};
ghost use Rattle.std.specs.Prelude.{IfOk, IfSome, MatchResult, OnOk, OnErr};
ghost use Rattle.mx_outside.specs.Told.{Rose};
ghost use Rattle.mx_outside.specs.Disk.{Only, LeavesOnly};
ghost use Rattle.mx_journal.specs.Calls.{OnlyReads};
ghost use Rattle.mx_journal.specs.Journal.{IsLongOrEmpty};
ghost use Rattle.mx_journal.specs.Opening.{IsLeftByOpening};
ghost use Rattle.mx_records.specs.History.{History, position_after, with_input};
ghost use Rattle.mx_records.specs.Normal.{IsNormal};
ghost use Rattle.mx_records.specs.Refusing.{IsAcceptableInput, IsBuilt};
ghost use Rattle.mx_records.specs.Snapshot.{snapshot_of};
ghost use Rattle.mx_store.specs.Standing.{HasFirstFaultAt, StandsFor, StandsForEitherHistory};
ghost use Rattle.mx_store.specs.Store.{disk_after, disk_tallied, Keeps, Knows, Tallies};
ghost use Rattle.mx_store.specs.Opening.{AcceptsInRange, IsRefusedSo};

use crate::opening::replay;
use crate::{AcceptError, OpenError, StoreError, Tallied, Tally};
use mx_engine::{Engine, PrepareError};
use mx_journal::{CommitError, Journal, Phase, StageError};
use mx_outside::{Disk, Failed};
use mx_records::Input;
use mx_rows::Rows;
use std::alloc::Global;
use std::marker::Model;

/// The most bytes of a disk that stands for no entry, whatever it holds.
const SHORT: u64 = 17;

/// The history of one homeserver's notifications on a disk, and the engine that stands for it.
#[derive(Drop)]
pub struct Store<D: Disk, R: Rows> {
    journal: Journal<D>,
    engine: Engine<R>,
}

impl<D: Disk, R: Rows> Model for Store<D, R> {
    ghost use Rattle.mx_store.specs.Store.{Stored};

    ghost Value = { Stored D };

    ghost use Rattle.mx_json.specs.contracts.value.Json as json;
    ghost use Rattle.mx_rows.specs.contracts.row.Row as row;
    ghost use Rattle.mx_rows.specs.contracts.thread_key.ThreadKey as thread;
    ghost use Rattle.std.specs.Coded.{codes};
    ghost use Rattle.std.specs.FinMap as map;
    ghost use Rattle.std.specs.FinSet as set;

    ghost coded = { Prim.hlevel (
      codes,
      map.code,
      set.code,
      json.the_row.coded,
      row.the_row.coded,
      thread.the_row.coded,
    ) };

    ghost use Rattle.std.specs.Prelude.{◌≢◌};
    ghost use Rattle.mx_records.specs.History.{History};
    ghost use Rattle.mx_store.specs.Store.{Knows};

    ghost view = { λ store. record {
      journal = store.journal;
      server = store.engine.server;
      shown = store.engine.shown;
    } };

    ghost invariant = { λ store. (h : History) × Knows store.engine.server store.engine.shown h };
}

impl<D: Disk, R: Rows> Store<D, R> {
    /// Opens the journal of a homeserver on a disk and accepts its entries, one after another. A
    /// disk of at most 17 bytes that isn't the empty journal is written anew, and a longer one
    /// isn't written.
    ///
    /// # Errors
    ///
    /// `NotAJournal` with the offset of the first fault, exactly where the disk stands for no
    /// history; `DiskFault` where the disk failed; `OutOfMemory` where the allocator has none. Each
    /// hands back the disk.
    pub fn open(alloc: Global, disk: D, server: &str) -> Result<Store<D, R>, OpenError<D>>
        ensures server { IfOk result (λ store. store.server ≡ server.now) }
        ensures ready { IfOk result (λ store. store.journal.phase ≡ Phase.Writing) }

        // At Ok it stands for the history for which the disk stands, and keeps it.
        ensures stands { IfOk result (λ store. (content : List ℕ) → D.seen disk ≡ Some content
            → (h : History) × StandsFor server.now content h × Knows server.now store.shown h) }
        ensures shown { IfOk result (λ store. (content : List ℕ) (h : History)
            → D.seen disk ≡ Some content → StandsFor server.now content h
            → store.shown ≡ snapshot_of server.now h) }
        ensures keeps { IfOk result (λ store. (content : List ℕ) (h : History)
            → D.seen disk ≡ Some content → Only content (D.may_leave disk)
            → StandsFor server.now content h → Keeps D.seen D.may_leave store h) }

        // A disk is no journal only where it has this first fault, and then it stands for nothing.
        ensures not_a_journal { IfErr result (λ error. (content : List ℕ) (offset : ℕ)
            → D.seen disk ≡ Some content → error.cause ≡ StoreError.NotAJournal offset
            → HasFirstFaultAt server.now content offset) }
        ensures one_history { (image : List ℕ) (g h : History)
            → StandsFor server.now image g → StandsFor server.now image h → g ≡ h }
        ensures one_fault { (image : List ℕ) (offset other : ℕ)
            → HasFirstFaultAt server.now image offset → HasFirstFaultAt server.now image other
            → offset ≡ other }
        ensures no_history { (image : List ℕ) (offset : ℕ) (h : History)
            → HasFirstFaultAt server.now image offset → ¬ StandsFor server.now image h }

        // A crash on the way leaves the same history, and what is long is only read.
        ensures any_moment { (content : List ℕ) (h : History)
            → D.seen disk ≡ Some content → Only content (D.may_leave disk)
            → StandsFor server.now content h
            → LeavesOnly D.moment D.left_since disk (disk_after result)
            (λ image. StandsFor server.now image h) }
        ensures nothing_else { (content : List ℕ)
            → D.seen disk ≡ Some content → Only content (D.may_leave disk)
            → LeavesOnly D.moment D.left_since disk (disk_after result)
            (IsLeftByOpening content) }
        ensures only_reads { (content : List ℕ) → D.seen disk ≡ Some content
            → IsLongOrEmpty content
            → OnlyReads D.same_disk D.seen D.may_leave D.moment D.left_since
            disk (disk_after result) }
        ensures remains { IfSome (D.seen disk) (D.may_leave disk)
            → IfSome (D.seen (disk_after result)) (D.may_leave (disk_after result)) }

        ensures fault { IfErr result (λ error. error.cause ≡ StoreError.DiskFault
            → Rose (D.faults disk) (D.faults error.disk)) }
        ensures steady { MatchResult result
            (λ store. D.faults store.journal.disk ≡ D.faults disk)
            (λ error. error.cause ≢ StoreError.DiskFault
            → D.faults error.disk ≡ D.faults disk) }
        ensures stays { D.same_disk disk (disk_after result) }
    {
        let mut engine = match Engine::new(alloc, server) {
            Ok(engine) => engine,
            Err(_) => {
                return Err(OpenError {
                    cause: StoreError::OutOfMemory,
                    disk,
                });
            }
        };
        match replay(alloc, disk, &mut engine) {
            Ok((journal, _)) => Ok(Store { journal, engine }),
            Err(error) => Err(error),
        }
    }

    /// Counts the entries of the journal of a homeserver, as opening it reads them. It only reads,
    /// and answers 0 for a disk of at most 17 bytes.
    ///
    /// # Errors
    ///
    /// As [`Store::open`].
    pub fn tally(alloc: Global, mut disk: D, server: &str) -> Result<Tallied<D>, OpenError<D>>
        ensures tally { IfOk result (λ tallied. (content : List ℕ) → D.seen disk ≡ Some content
            → (h : History) × StandsFor server.now content h × Tallies tallied.tally h) }
        ensures not_a_journal { IfErr result (λ error. (content : List ℕ) (offset : ℕ)
            → D.seen disk ≡ Some content → error.cause ≡ StoreError.NotAJournal offset
            → HasFirstFaultAt server.now content offset) }
        ensures only_reads { (content : List ℕ) → D.seen disk ≡ Some content
            → OnlyReads D.same_disk D.seen D.may_leave D.moment D.left_since
            disk (disk_tallied result) }
        ensures fault { IfErr result (λ error. error.cause ≡ StoreError.DiskFault
            → Rose (D.faults disk) (D.faults error.disk)) }
        ensures steady { MatchResult result
            (λ tallied. D.faults tallied.disk ≡ D.faults disk)
            (λ error. error.cause ≢ StoreError.DiskFault
            → D.faults error.disk ≡ D.faults disk) }
        ensures stays { D.same_disk disk (disk_tallied result) }
    {
        match disk.len() {
            Ok(length) if length <= SHORT => Ok(Tallied {
                tally: Tally {
                    entries: 0,
                    inputs: 0,
                },
                disk,
            }),
            Ok(_) => Self::tally_long(alloc, disk, server),
            Err(Failed) => Err(OpenError {
                cause: StoreError::DiskFault,
                disk,
            }),
        }
    }

    // Counts the entries of a disk that has more than 17 bytes.
    fn tally_long(alloc: Global, disk: D, server: &str) -> Result<Tallied<D>, OpenError<D>>
        requires { IfSome (D.seen disk) (λ content. 17 < length content) }
        ensures tally { IfOk result (λ tallied. (content : List ℕ) → D.seen disk ≡ Some content
            → (h : History) × StandsFor server.now content h × Tallies tallied.tally h) }
        ensures not_a_journal { IfErr result (λ error. (content : List ℕ) (offset : ℕ)
            → D.seen disk ≡ Some content → error.cause ≡ StoreError.NotAJournal offset
            → HasFirstFaultAt server.now content offset) }
        ensures only_reads { (content : List ℕ) → D.seen disk ≡ Some content
            → OnlyReads D.same_disk D.seen D.may_leave D.moment D.left_since
            disk (disk_tallied result) }
        ensures fault { IfErr result (λ error. error.cause ≡ StoreError.DiskFault
            → Rose (D.faults disk) (D.faults error.disk)) }
        ensures steady { MatchResult result
            (λ tallied. D.faults tallied.disk ≡ D.faults disk)
            (λ error. error.cause ≢ StoreError.DiskFault
            → D.faults error.disk ≡ D.faults disk) }
        ensures stays { D.same_disk disk (disk_tallied result) }
    {
        let mut engine = match Engine::<R>::new(alloc, server) {
            Ok(engine) => engine,
            Err(_) => {
                return Err(OpenError {
                    cause: StoreError::OutOfMemory,
                    disk,
                });
            }
        };
        match replay(alloc, disk, &mut engine) {
            Ok((journal, count)) => Ok(Tallied {
                tally: Tally {
                    entries: count,
                    inputs: count,
                },
                disk: journal.into_disk(),
            }),
            Err(error) => Err(error),
        }
    }

    /// The engine that stands for the history.
    pub fn engine(&self) -> &Engine<R>
        ensures server { result.now.server ≡ self.now.server }
        ensures shown { result.now.shown ≡ self.now.shown }
    {
        &self.engine
    }

    /// Gives the disk back.
    pub fn into_disk(self) -> D
        ensures { result ≡ self.journal.disk }
    {
        self.journal.into_disk()
    }

    /// Accepts an input: prepares it, commits its entry to the disk, and then applies it. Answers
    /// its position (from 1). Until the entry is on the disk the engine stands for what it stood
    /// for.
    ///
    /// # Errors
    ///
    /// `Refused` with the first refusal that applies, exactly where one does, and `OutOfMemory`
    /// where the allocator has none; either leaves all as it was. `DiskFault` where the disk
    /// failed: then the disk has the entry or not, and the store is to be opened again.
    pub fn accept(&mut self, alloc: Global, input: &Input) -> Result<u64, AcceptError>
        requires normal { IsNormal input.now }
        requires built { IsBuilt input.now }
        requires ready { self.old.journal.phase ≡ Phase.Writing }
        ensures server { self.new.server ≡ self.old.server }

        // At Ok engine and disk go on by the input.
        ensures shown { (h : History) → Knows self.old.server self.old.shown h
            → OnOk result (Knows self.new.server self.new.shown (with_input h input.now)) }
        ensures accepted { (h : History) → Keeps D.seen D.may_leave self.old h
            → OnOk result (Keeps D.seen D.may_leave self.new (with_input h input.now)) }
        ensures position { (h : History) → Knows self.old.server self.old.shown h
            → IfOk result (λ position. position ≡ position_after h) }
        ensures acceptable { (h : History) → Knows self.old.server self.old.shown h
            → OnOk result (IsAcceptableInput self.old.server h input.now) }

        // Any other answer leaves the engine, and all but a fault of the disk leaves the journal.
        ensures unshown { OnErr result (self.new.shown ≡ self.old.shown) }
        ensures same { IfErr result
            (λ error. error ≢ AcceptError.DiskFault → self.new ≡ self.old) }
        ensures refused { (h : History) → Knows self.old.server self.old.shown h
            → IfErr result (IsRefusedSo self.old.server h input.now) }
        ensures in_range { AcceptsInRange result }

        // A crash at any moment of the call leaves the history or the one with the input.
        ensures any_moment { (h : History) → Keeps D.seen D.may_leave self.old h
            → LeavesOnly D.moment D.left_since self.old.journal.disk self.new.journal.disk
            (StandsForEitherHistory self.old.server h (with_input h input.now)) }
        ensures stopped { (h : History) (image : List ℕ) → Keeps D.seen D.may_leave self.old h
            → D.may_leave self.new.journal.disk image
            → StandsForEitherHistory self.old.server h (with_input h input.now) image }

        ensures writing { result ≢ Err AcceptError.DiskFault
            → self.new.journal.phase ≡ Phase.Writing }
        ensures fault { result ≡ Err AcceptError.DiskFault
            → Rose (D.faults self.old.journal.disk) (D.faults self.new.journal.disk) }
        ensures steady { result ≢ Err AcceptError.DiskFault
            → D.faults self.new.journal.disk ≡ D.faults self.old.journal.disk }
        ensures stays { D.same_disk self.old.journal.disk self.new.journal.disk }
    {
        let plan = match self.engine.prepare(alloc, input) {
            Ok(plan) => plan,
            Err(PrepareError::Refused(refusal)) => return Err(AcceptError::Refused(refusal)),
            Err(PrepareError::OutOfMemory) => return Err(AcceptError::OutOfMemory),
        };
        match self.journal.stage(plan.payload()) {
            Ok(()) => {}
            Err(StageError::OutOfMemory) => return Err(AcceptError::OutOfMemory),
            Err(StageError::TooLong) => unreachable!(),
        }
        match self.journal.commit() {
            Ok(()) => Ok(self.engine.apply(plan)),
            Err(CommitError::DiskFault) => Err(AcceptError::DiskFault),
            Err(CommitError::Closed) => unreachable!(),
        }
    }
}
