ghost use Rattle.std.specs.Prelude.{◌≡◌, ◌≢◌, ◌+◌, ◌^◌, ◌<◌, ◌≤◌, ◌↔◌, ◌⊎◌, [], ◌++◌, ◌∷◌, List, ℕ};
ghost use Rattle.std.specs.Prelude.{length, take, drop, true, false, IsOk, IsErr, OnOk, OnErr};
ghost use Rattle.std.specs.Prelude.{IfOk, IfErr, IfSome, MatchResult};
ghost use Rattle.mx_outside.specs.Told.{Rose};
ghost use Rattle.mx_outside.specs.Budget.{CoversCalls, SpendsCalls};
ghost use Rattle.mx_outside.specs.Disk.{Only, LeavesOnly};
ghost use Rattle.mx_journal.specs.Image.{header, empty_journal, payload_limit, StandsForPayloads};
ghost use Rattle.mx_journal.specs.Image.{StandsForEither};
ghost use Rattle.mx_journal.specs.Fault.{LacksHeader, IsFaultyGate, IsNotAJournalAt};
ghost use Rattle.mx_journal.specs.Calls.{OnlyReads, CountsDiskFaults};
ghost use Rattle.mx_journal.specs.Journal.{IsLongOrEmpty, HasRead, HasClosedGate, LeavesAlike};
ghost use Rattle.mx_journal.specs.Journal.{Rests};
ghost use Rattle.mx_journal.specs.NextRecord.{Found, BeginsWith, phase_after_reading};
ghost use Rattle.mx_journal.specs.Opening.{IsLeftByOpening, disk_after};

use crate::append::append;
use crate::format::{HEADER, PAYLOAD_LIMIT};
use crate::open::begin;
use crate::read::read_record;
use crate::stage::{put_record, reserve_to};
use crate::{CommitError, JournalError, OpenError, Phase, StageError};
use mx_outside::{Disk, Failed};
use std::alloc::Global;
use std::marker::Model;
use std::mem;

/// A journal on a disk.
#[derive(Drop)]
pub struct Journal<D: Disk> {
    disk: D,
    // Where the next gate stands.
    gate: u64,
    phase: Phase,
    // What a commit writes behind the gate: a record's body and a closed gate, or nothing.
    staged: Vec<u8>,
    // What is read next, until it is whole.
    buffer: Vec<u8>,
}

impl<D: Disk> Model for Journal<D> {
    ghost use Rattle.mx_journal.specs.Journal.{Opened};

    ghost Value = { Opened D };

    ghost use Rattle.mx_journal.specs.Held.{payload_in, HoldsJournal};

    ghost view = { λ j. record {
      disk = j.disk;
      gate = j.gate;
      phase = j.phase;
      staged = payload_in j.staged.items;
    } };

    ghost invariant = { λ j. HoldsJournal D.seen j.disk j.gate j.phase j.staged.items };
}

impl<D: Disk> Journal<D> {
    /// Opens the journal on a disk. A disk of at most 17 bytes that isn't the empty journal is
    /// written anew, and a longer one isn't written.
    ///
    /// `NotAJournal(0)` where more than 17 bytes don't begin with the header, and `DiskFault`
    /// where the disk failed. Either hands back the disk.
    pub fn open(alloc: Global, mut disk: D) -> Result<Journal<D>, OpenError<D>>
        ensures short { IfOk result (λ journal. (content : List ℕ)
            → D.seen disk ≡ Some content → length content ≤ 17
            → HasRead D.seen journal empty_journal []) }
        ensures long { IfOk result (λ journal. (content : List ℕ)
            → D.seen disk ≡ Some content → 17 < length content
            → HasRead D.seen journal content []) }
        ensures fresh { IfOk result (λ journal.
            (journal.phase ≡ Phase.Reading) × (journal.staged ≡ [])) }

        // More than 17 bytes and the empty journal are only read.
        ensures only_reads { (content : List ℕ) → D.seen disk ≡ Some content → IsLongOrEmpty content
            → OnlyReads D.same_disk D.seen D.may_leave D.moment D.left_since
            disk (disk_after result) }

        // Where nothing was pending, nothing is, and a crash on the way leaves the same payloads.
        ensures durable { IfOk result (λ journal. (content : List ℕ)
            → D.seen disk ≡ Some content → Only content (D.may_leave disk)
            → IfSome (D.seen journal.disk) (λ now. Only now (D.may_leave journal.disk))) }
        ensures any_moment { (content : List ℕ) (payloads : List (List ℕ))
            → D.seen disk ≡ Some content → Only content (D.may_leave disk)
            → StandsForPayloads content payloads
            → LeavesOnly D.moment D.left_since disk (disk_after result)
            (λ image. StandsForPayloads image payloads) }
        ensures nothing_else { (content : List ℕ)
            → D.seen disk ≡ Some content → Only content (D.may_leave disk)
            → LeavesOnly D.moment D.left_since disk (disk_after result) (IsLeftByOpening content) }

        ensures possible { IfOk result (λ journal.
            IfSome (D.seen journal.disk) (D.may_leave journal.disk)) }
        ensures remains { IfSome (D.seen disk) (D.may_leave disk)
            → IfSome (D.seen (disk_after result)) (D.may_leave (disk_after result)) }

        // A missing header is the one fault that opening tells, and tells unless the disk fails.
        ensures causes { IfErr result (λ error. (error.cause ≡ JournalError.NotAJournal 0)
            ⊎ (error.cause ≡ JournalError.DiskFault)) }
        ensures not_a_journal { IfErr result (λ error. (content : List ℕ) (offset : ℕ)
            → D.seen disk ≡ Some content → error.cause ≡ JournalError.NotAJournal offset
            → (17 < length content) × LacksHeader content offset) }
        ensures lacks_header { (content : List ℕ)
            → D.seen disk ≡ Some content → 17 < length content → take 16 content ≢ header
            → IsErr result }
        ensures stands_for_none { IfErr result (λ error. (content : List ℕ) (offset : ℕ)
            → D.seen disk ≡ Some content → error.cause ≡ JournalError.NotAJournal offset
            → (payloads : List (List ℕ)) → ¬ StandsForPayloads content payloads) }

        ensures fault { IfErr result (λ error. error.cause ≡ JournalError.DiskFault
            → Rose (D.faults disk) (D.faults error.disk)) }
        ensures steady { MatchResult result
            (λ journal. D.faults journal.disk ≡ D.faults disk)
            (λ error. error.cause ≢ JournalError.DiskFault
            → D.faults error.disk ≡ D.faults disk) }
        ensures count { D.faults disk ≤ D.faults (disk_after result) }
        ensures within { CoversCalls (D.budget disk) 5 17
            → IfErr result (λ error. error.cause ≢ JournalError.DiskFault) }
        ensures spends { SpendsCalls 5 17 (D.budget disk) (D.budget (disk_after result)) }
        ensures stays { D.same_disk disk (disk_after result) }

        // An image stands for one list of payloads at most.
        ensures one_list { (image : List ℕ) (payloads others : List (List ℕ))
            → StandsForPayloads image payloads → StandsForPayloads image others
            → payloads ≡ others }
    {
        match begin(&mut disk) {
            Ok(()) => Ok(Journal {
                disk,
                gate: HEADER.len() as u64,
                phase: Phase::Reading,
                staged: Vec::new(alloc),
                buffer: Vec::new(alloc),
            }),
            Err(cause) => Err(OpenError { cause, disk }),
        }
    }

    /// Reads the next payload into `out`, in the place of what it had. `false` exactly at the
    /// first gate that isn't open. Where it gives no payload, `out` is as it was.
    ///
    /// `NotAJournal` with the offset of the gate where that is missing, or is open and no whole
    /// record stands behind it; `DiskFault` where the disk failed; `OutOfMemory` where there is no
    /// memory for the payload. After an error the same gate may be read again.
    pub fn next_record(&mut self, out: &mut Vec<u8>) -> Result<bool, JournalError>
        // It answers what stands at the gate, unless the disk fails.
        ensures found { (content : List ℕ) → D.seen self.old.disk ≡ Some content
            → Found result content self.old.gate out.new.items }
        ensures end { (content : List ℕ) → D.seen self.old.disk ≡ Some content
            → HasClosedGate content self.old.gate
            → (result ≡ Ok false) ⊎ (result ≡ Err JournalError.DiskFault) }
        ensures faulty { (content : List ℕ) → D.seen self.old.disk ≡ Some content
            → IsFaultyGate (drop self.old.gate content)
            → (result ≡ Err (JournalError.NotAJournal self.old.gate))
            ⊎ (result ≡ Err JournalError.DiskFault) }

        // The payloads come in order.
        ensures payload { (content : List ℕ) (payloads : List (List ℕ))
            → HasRead D.seen self.old content payloads → result ≡ Ok true
            → HasRead D.seen self.new content (payloads ++ out.new.items ∷ []) }
        ensures kept { result ≢ Ok true → out.new.items ≡ out.old.items }

        // Whatever the disk stands for begins with what was read.
        ensures front { (content : List ℕ) (payloads others : List (List ℕ))
            → HasRead D.seen self.old content payloads → result ≡ Ok true
            → StandsForPayloads content others
            → BeginsWith others (payloads ++ out.new.items ∷ []) }

        // At the end all is at rest, where a crash leaves what is read or a journal of the same.
        ensures rests { (content : List ℕ) (payloads : List (List ℕ))
            → HasRead D.seen self.old content payloads
            → LeavesAlike content payloads (D.may_leave self.old.disk)
            → result ≡ Ok false → Rests D.seen D.may_leave self.new payloads }

        // The disk holds these payloads and no others, or no journal, and has no fault before.
        ensures stands { (content : List ℕ) (payloads others : List (List ℕ))
            → HasRead D.seen self.old content payloads → result ≡ Ok false
            → StandsForPayloads content others ↔ (others ≡ payloads) }
        ensures not_a_journal { (content : List ℕ) (payloads : List (List ℕ)) (offset : ℕ)
            → HasRead D.seen self.old content payloads
            → result ≡ Err (JournalError.NotAJournal offset)
            → IsNotAJournalAt content offset }
        ensures no_other_fault { (content : List ℕ) (payloads : List (List ℕ)) (offset other : ℕ)
            → HasRead D.seen self.old content payloads
            → result ≡ Err (JournalError.NotAJournal offset)
            → IsNotAJournalAt content other → other ≡ offset }
        ensures stands_for_none { (content : List ℕ) (payloads others : List (List ℕ)) (offset : ℕ)
            → HasRead D.seen self.old content payloads
            → result ≡ Err (JournalError.NotAJournal offset)
            → ¬ StandsForPayloads content others }

        ensures phase { self.new.phase ≡ phase_after_reading result self.old.phase }
        ensures gate { result ≢ Ok true → self.new.gate ≡ self.old.gate }
        ensures staged { self.new.staged ≡ self.old.staged }
        ensures only_reads { OnlyReads D.same_disk D.seen D.may_leave D.moment D.left_since
            self.old.disk self.new.disk }
        ensures counts { CountsDiskFaults result
            (D.faults self.old.disk) (D.faults self.new.disk) }
        ensures within { CoversCalls (D.budget self.old.disk) 4 0
            → result ≢ Err JournalError.DiskFault }
        ensures spends { SpendsCalls 4 0 (D.budget self.old.disk) (D.budget self.new.disk) }
    {
        if self.phase == Phase::Writing {
            return Ok(false);
        }
        match read_record(&mut self.disk, self.gate, &mut self.buffer) {
            Ok(true) => {
                self.gate += 5 + self.buffer.len() as u64;
                mem::swap(out, &mut self.buffer);
                Ok(true)
            }
            Ok(false) => {
                self.phase = self.phase.at_end();
                Ok(false)
            }
            Err(cause) => Err(cause),
        }
    }

    /// Where the next gate stands, in bytes from 0: that of the record that is read next, or of the
    /// first gate that isn't open.
    pub fn gate(&self) -> u64
        ensures { result ≡ self.now.gate }
    {
        self.gate
    }

    /// Stages a payload for the next commit, in the place of one that is staged already.
    ///
    /// `TooLong` where the payload has more than 262,144 bytes, and `OutOfMemory` where there is
    /// no memory for the record. Either leaves what was staged.
    pub fn stage(&mut self, payload: &[u8]) -> Result<(), StageError>
        requires { 0 < length payload.now }
        ensures too_long { (result ≡ Err StageError.TooLong)
            ↔ (payload_limit < length payload.now) }
        ensures staged { OnOk result (self.new ≡ record self.old { staged = payload.now }) }
        ensures same { OnErr result (self.new ≡ self.old) }
    {
        if payload.len() > PAYLOAD_LIMIT as usize {
            return Err(StageError::TooLong);
        }
        reserve_to(&mut self.staged, payload.len() + 5)?;
        put_record(&mut self.staged, payload);
        Ok(())
    }

    /// Adds the payload that is staged. At `Ok` it is acknowledged: each crash leaves it. It takes
    /// no memory, and makes at most four calls of the disk, that write six bytes more than the
    /// payload has. After it none is staged.
    ///
    /// `Closed` exactly where an earlier commit answered `DiskFault`, and `DiskFault` where the
    /// disk failed: then the disk has the payload or not, until it is opened again.
    pub fn commit(&mut self) -> Result<(), CommitError>
        requires staged { 0 < length self.old.staged }
        requires all_read { self.old.phase ≢ Phase.Reading }

        // At Ok the new payload is on the disk, and a crash leaves what a read gives.
        ensures settled { OnOk result (IfSome (D.seen self.new.disk)
            (λ content. Only content (D.may_leave self.new.disk))) }
        ensures acknowledged { (payloads : List (List ℕ))
            → Rests D.seen D.may_leave self.old payloads
            → OnOk result (Rests D.seen D.may_leave self.new (payloads ++ self.old.staged ∷ [])) }
        ensures only_new { (payloads : List (List ℕ)) (image : List ℕ)
            → Rests D.seen D.may_leave self.old payloads → D.may_leave self.new.disk image
            → OnOk result (StandsForPayloads image (payloads ++ self.old.staged ∷ [])) }

        // A crash at any moment of the call leaves the old payloads or the new ones.
        ensures any_moment { (payloads : List (List ℕ)) → Rests D.seen D.may_leave self.old payloads
            → LeavesOnly D.moment D.left_since self.old.disk self.new.disk
            (StandsForEither payloads (payloads ++ self.old.staged ∷ [])) }
        ensures remains { IfSome (D.seen self.old.disk) (D.may_leave self.old.disk)
            → IfSome (D.seen self.new.disk) (D.may_leave self.new.disk) }

        // Within a budget of its four calls it succeeds, and it spends no more.
        ensures within { self.old.phase ≡ Phase.Writing
            → CoversCalls (D.budget self.old.disk) 4 (length self.old.staged + 6)
            → self.old.gate + length self.old.staged + 6 < 2 ^ 63 → IsOk result }
        ensures spends { SpendsCalls 4 (length self.old.staged + 6)
            (D.budget self.old.disk) (D.budget self.new.disk) }

        ensures closed { (result ≡ Err CommitError.Closed) ↔ (self.old.phase ≡ Phase.Failed) }
        ensures writing { OnOk result (self.new.phase ≡ Phase.Writing) }
        ensures failed { OnErr result (self.new.phase ≡ Phase.Failed) }
        ensures untouched { result ≡ Err CommitError.Closed → self.new.disk ≡ self.old.disk }
        ensures none_staged { self.new.staged ≡ [] }
        ensures fault { result ≡ Err CommitError.DiskFault
            → Rose (D.faults self.old.disk) (D.faults self.new.disk) }
        ensures steady { result ≢ Err CommitError.DiskFault
            → D.faults self.new.disk ≡ D.faults self.old.disk }
        ensures stays { D.same_disk self.old.disk self.new.disk }
        ensures count { D.faults self.old.disk ≤ D.faults self.new.disk }
    {
        if self.phase == Phase::Failed {
            self.staged.clear();
            return Err(CommitError::Closed);
        }
        match append(&mut self.disk, self.gate, self.staged.as_slice()) {
            Ok(()) => {
                self.gate += self.staged.len() as u64;
                self.staged.clear();
                Ok(())
            }
            Err(Failed) => {
                self.phase = Phase::Failed;
                self.staged.clear();
                Err(CommitError::DiskFault)
            }
        }
    }

    /// Gives back the disk.
    pub fn into_disk(self) -> D
        ensures { result ≡ self.disk }
    {
        let Journal {
            disk,
            gate: _,
            phase: _,
            staged,
            buffer,
        } = self;
        drop(staged);
        drop(buffer);
        disk
    }
}
