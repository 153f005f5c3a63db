//! The entries of a journal, accepted one after another.
ghost use Rattle.std.specs.Prelude.{◌≡◌, ◌≢◌, ◌≤◌, ℕ, List, [], true, false, Ok, Err, IfOk};
ghost use Rattle.std.specs.Prelude.{MatchOption, OnOk};
ghost use Rattle.mx_journal.specs.Image.{StandsForPayloads};
ghost use Rattle.mx_journal.specs.Journal.{LeavesAlike, Rests};
ghost use Rattle.mx_records.specs.History.{position_after};
ghost use Rattle.mx_records.specs.Refusing.{most_inputs, payloads_of};
ghost use Rattle.mx_journal.specs.Calls.{OnlyReads};
ghost use Rattle.mx_journal.specs.Journal.{HasRead};
ghost use Rattle.mx_records.specs.declared.entry.Entry.{Entry};
ghost use Rattle.mx_records.specs.History.{History};
ghost use Rattle.mx_records.specs.Refusing.{IsBuilt};
ghost use Rattle.mx_records.specs.Snapshot.{snapshot_of};
ghost use Rattle.mx_store.specs.Standing.{HasFirstFaultAt, IsNoNextPayload};
ghost use Rattle.mx_store.specs.Store.{CountsStoreFaults, HasReadAll, Knows};
ghost use Rattle.mx_store.specs.Opening.{GoesOnWith, HasReadMore};

use crate::StoreError;
use mx_engine::{Engine, PrepareError};
use mx_journal::{Journal, Phase};
use mx_outside::Disk;
use mx_records::{Entry, EntryError, Input, MOST_INPUTS, decode};
use mx_rows::Rows;
use std::alloc::Global;

/// Accepts the entry of a payload, which stands in a record at this gate.
///
/// # Errors
///
/// `NotAJournal` with the gate exactly where the payload is that of no entry that may come next.
/// `OutOfMemory` where the allocator has none.
fn accept_payload<R: Rows>(
    alloc: Global,
    engine: &mut Engine<R>,
    payload: &[u8],
    gate: u64,
) -> Result<(), StoreError>
    ensures server { engine.new.server ≡ engine.old.server }
    ensures accepted { (h : History) → Knows engine.old.server engine.old.shown h
        → OnOk result (GoesOnWith payload.now engine.new.server engine.new.shown h) }
    ensures not_a_journal { (h : History) (offset : ℕ) → Knows engine.old.server engine.old.shown h
        → result ≡ Err (StoreError.NotAJournal offset)
        → (offset ≡ gate) × IsNoNextPayload engine.old.server h payload.now }
    ensures few { (h : History) → Knows engine.old.server engine.old.shown h
        → OnOk result (position_after h ≤ most_inputs) }
    ensures no_fault { result ≢ Err StoreError.DiskFault }
{
    let entry = match decode(alloc, payload) {
        Ok(entry) => entry,
        Err(EntryError::OutOfMemory) => return Err(StoreError::OutOfMemory),
        Err(EntryError::BadEntry(_)) => return Err(StoreError::NotAJournal(gate)),
    };
    let Some(input) = built_input(entry) else {
        return Err(StoreError::NotAJournal(gate));
    };
    match engine.prepare(alloc, &input) {
        Ok(plan) => {
            engine.apply(plan);
            Ok(())
        }
        Err(PrepareError::Refused(_)) => Err(StoreError::NotAJournal(gate)),
        Err(PrepareError::OutOfMemory) => Err(StoreError::OutOfMemory),
    }
}

/// Reads the next entry and accepts it; `false` where all were read.
///
/// # Errors
///
/// `NotAJournal` with the offset of the first fault, `DiskFault` where the disk failed, and
/// `OutOfMemory` where the allocator has none.
fn read_entry<D: Disk, R: Rows>(
    alloc: Global,
    journal: &mut Journal<D>,
    engine: &mut Engine<R>,
    payload: &mut Vec<u8>,
) -> Result<bool, StoreError>
    requires { journal.old.phase ≡ Phase.Reading }
    ensures server { engine.new.server ≡ engine.old.server }
    ensures more { (h : History) → Knows engine.old.server engine.old.shown h → result ≡ Ok true
        → (next : History) × HasReadMore D.seen journal.old journal.new
        engine.new.server engine.new.shown h next }
    ensures end_shown { result ≡ Ok false → engine.new.shown ≡ engine.old.shown }
    ensures end_stands { (content : List ℕ) (payloads : List (List ℕ)) → result ≡ Ok false
        → HasRead D.seen journal.old content payloads → StandsForPayloads content payloads }
    ensures end_rests { (content : List ℕ) (payloads : List (List ℕ)) → result ≡ Ok false
        → HasRead D.seen journal.old content payloads
        → LeavesAlike content payloads (D.may_leave journal.old.disk)
        → Rests D.seen D.may_leave journal.new payloads }
    ensures not_a_journal { (h : History) (content : List ℕ) (offset : ℕ)
        → Knows engine.old.server engine.old.shown h
        → HasRead D.seen journal.old content (payloads_of h)
        → result ≡ Err (StoreError.NotAJournal offset)
        → HasFirstFaultAt engine.old.server content offset }
    ensures phase { result ≡ Ok true → journal.new.phase ≡ Phase.Reading }
    ensures end_phase { result ≡ Ok false → journal.new.phase ≡ Phase.Writing }
    ensures staged { journal.new.staged ≡ journal.old.staged }
    ensures only_reads { OnlyReads D.same_disk D.seen D.may_leave D.moment D.left_since
        journal.old.disk journal.new.disk }
    ensures counts { CountsStoreFaults result
        (D.faults journal.old.disk) (D.faults journal.new.disk) }
{
    let gate = journal.gate();
    match journal.next_record(payload) {
        Ok(true) => match accept_payload(alloc, engine, payload.as_slice(), gate) {
            Ok(()) => Ok(true),
            Err(error) => Err(error),
        },
        Ok(false) => Ok(false),
        Err(error) => Err(StoreError::from(error)),
    }
}

/// Reads all entries of a journal, from its beginning, and accepts them; answers how many they are.
///
/// # Errors
///
/// `NotAJournal` with the offset of the first fault, `DiskFault` where the disk failed, and
/// `OutOfMemory` where the allocator has none.
pub(crate) fn read_entries<D: Disk, R: Rows>(
    alloc: Global,
    journal: &mut Journal<D>,
    engine: &mut Engine<R>,
) -> Result<u64, StoreError>
    requires reading { journal.old.phase ≡ Phase.Reading }
    requires empty { engine.old.shown ≡ snapshot_of engine.old.server [] }
    ensures server { engine.new.server ≡ engine.old.server }
    ensures read { IfOk result (λ count. (h : History)
        × HasReadAll D.seen D.may_leave journal.old journal.new
        engine.new.server engine.new.shown count h) }
    ensures not_a_journal { (content : List ℕ) (offset : ℕ)
        → HasRead D.seen journal.old content []
        → result ≡ Err (StoreError.NotAJournal offset)
        → HasFirstFaultAt engine.old.server content offset }
    ensures phase { OnOk result (journal.new.phase ≡ Phase.Writing) }
    ensures staged { journal.new.staged ≡ journal.old.staged }
    ensures only_reads { OnlyReads D.same_disk D.seen D.may_leave D.moment D.left_since
        journal.old.disk journal.new.disk }
    ensures counts { CountsStoreFaults result
        (D.faults journal.old.disk) (D.faults journal.new.disk) }
{
    let mut payload = Vec::new(alloc);
    for count in 0..MOST_INPUTS + 1 {
        match read_entry(alloc, journal, engine, &mut payload) {
            Ok(true) => {}
            Ok(false) => return Ok(count),
            Err(error) => return Err(error),
        }
    }
    unreachable!()
}

/// The input of an entry, if it is one of a command that is built.
fn built_input(entry: Entry) -> Option<Input>
    ensures { MatchOption result
        ((input : Input) → IsBuilt input → entry ≢ Entry.Input input)
        (λ input. (entry ≡ Entry.Input input) × IsBuilt input) }
{
    match entry {
        Entry::Input(Input::Pusher(_)) | Entry::Outcome(_) => None,
        Entry::Input(input) => Some(input),
    }
}
