ghost use Rattle.std.specs.Prelude.{◌≡◌, ◌≢◌, ◌⊎◌, ℕ, ◌≤◌, ◌<◌, ◌^◌, List, length, map};
ghost use Rattle.std.specs.Prelude.{string_bytes, Some};
ghost use Rattle.mx_journal.specs.Calls.{OnlyReads};
ghost use Rattle.mx_lines.specs.Cutting.{nothing_held};
ghost use Rattle.mx_outside.specs.Told.{Rose, Writes};
ghost use Rattle.mx_records.specs.History.{History};
ghost use Rattle.mx_store.specs.Standing.{HasFirstFaultAt, StandsFor};
ghost use Rattle.push_server.specs.CommandLine.{AreWordsOf};
ghost use Rattle.push_server.specs.Crash.{LeavesSince, Stands, Start};
ghost use Rattle.push_server.specs.Headline.{EndsOn, HasLawfulRunOf, TellsFault, TellsTally};
ghost use Rattle.push_server.specs.JournalLines.{fault_line};
ghost use Rattle.push_server.specs.Transfers.{largest_piece};

use crate::command_line::{Subcommand, read_words};
use crate::journal_lines::{fault_into, tally_into};
use crate::pieces::{piece_buffer, read_piece};
use crate::session::Session;
use crate::status::Status;
use crate::writing::write_all;
use mx_journal::Phase;
use mx_lines::LineCutter;
use mx_outside::{Disk, Failed, Got, Sink, Source};
use mx_rows::PlainRows;
use mx_store::{Store, StoreError};
use std::alloc::Global;

/// The most bytes of input that are taken.
const INPUT_LIMIT: u64 = 1_073_741_824;

/// Serves with a limit of the input in bytes. [`serve`] says what that is.
pub fn serve_within<S: Source, K: Sink, D: Disk>(
    alloc: Global,
    words: &[String],
    limit: u64,
    source: &mut S,
    sink: &mut K,
    disk: &mut D,
) -> Status
    // The words decide, and for other words nothing is read or written.
    ensures usage { ((subcommand : Subcommand) (server journal : List ℕ)
        → AreWordsOf (map string_bytes words.now) subcommand server journal → ⊥)
        → result ≡ Status.Usage }
    ensures only_usage { result ≡ Status.Usage → (subcommand : Subcommand) (server journal : List ℕ)
        → AreWordsOf (map string_bytes words.now) subcommand server journal → ⊥ }
    ensures reads_nothing { result ≡ Status.Usage → source.new ≡ source.old }
    ensures writes_nothing { result ≡ Status.Usage → sink.new ≡ sink.old }
    ensures touches_nothing { result ≡ Status.Usage → disk.new ≡ disk.old }

    // What a run read and wrote is a lawful run,
    // and a stop leaves the history that it acknowledged.
    ensures lawful { (server journal content : List ℕ) (h0 : History)
        → AreWordsOf (map string_bytes words.now) Subcommand.Run server journal
        → D.seen disk.old ≡ Some content → StandsFor server content h0
        → HasLawfulRunOf limit server h0 (S.left source.old) (S.left source.new)
        (K.taken sink.old) (K.taken sink.new) result
        (LeavesSince D.may_leave D.moment D.left_since server disk.new
        (record { disk = disk.old; content = content; history = h0 })) }

    // What is no journal is told with the offset of its first fault.
    ensures not_a_journal { (subcommand : Subcommand) (server journal content : List ℕ)
        → AreWordsOf (map string_bytes words.now) subcommand server journal
        → D.seen disk.old ≡ Some content → result ≡ Status.NotAJournal
        → TellsFault server content (K.taken sink.old) (K.taken sink.new) }
    ensures no_journal { (subcommand : Subcommand) (server journal content : List ℕ) (offset : ℕ)
        → AreWordsOf (map string_bytes words.now) subcommand server journal
        → D.seen disk.old ≡ Some content → HasFirstFaultAt server content offset
        → (Rose (K.faults sink.old) (K.faults sink.new) → ⊥)
        → (Rose (D.faults disk.old) (D.faults disk.new) → ⊥)
        → (result ≡ Status.NotAJournal) ⊎ (result ≡ Status.OutOfMemory) }

    // A check counts the entries, and only reads the disk.
    ensures tallied { (server journal content : List ℕ)
        → AreWordsOf (map string_bytes words.now) Subcommand.Check server journal
        → D.seen disk.old ≡ Some content → result ≡ Status.Done
        → TellsTally server content (K.taken sink.old) (K.taken sink.new) }
    ensures only_reads { (server journal content : List ℕ)
        → AreWordsOf (map string_bytes words.now) Subcommand.Check server journal
        → D.seen disk.old ≡ Some content
        → OnlyReads D.same_disk D.seen D.may_leave D.moment D.left_since disk.old disk.new }
    ensures check_reads_nothing { (server journal : List ℕ)
        → AreWordsOf (map string_bytes words.now) Subcommand.Check server journal
        → source.new ≡ source.old }

    // A fault has its cause, and the first one ends the run.
    ensures read { result ≡ Status.ReadFault → Rose (S.faults source.old) (S.faults source.new) }
    ensures read_count { S.faults source.old ≤ S.faults source.new }
    ensures read_steady { result ≢ Status.ReadFault → S.faults source.new ≡ S.faults source.old }
    ensures write { result ≡ Status.WriteFault → Rose (K.faults sink.old) (K.faults sink.new) }
    ensures write_count { K.faults sink.old ≤ K.faults sink.new }
    ensures write_steady { result ≢ Status.WriteFault → K.faults sink.new ≡ K.faults sink.old }
    ensures disk_fault { result ≡ Status.DiskFault → Rose (D.faults disk.old) (D.faults disk.new) }
    ensures disk_steady { result ≢ Status.DiskFault → D.faults disk.new ≡ D.faults disk.old }
    ensures same_disk { D.same_disk disk.old disk.new }

    // Without a fault, over a journal, and with the whole input below the limit,
    // only memory may be wanting.
    ensures done { (subcommand : Subcommand) (server journal content left : List ℕ) (h : History)
        → AreWordsOf (map string_bytes words.now) subcommand server journal
        → D.seen disk.old ≡ Some content → StandsFor server content h
        → S.left source.old ≡ Some left → length left < limit
        → (Rose (S.faults source.old) (S.faults source.new) → ⊥)
        → (Rose (K.faults sink.old) (K.faults sink.new) → ⊥)
        → (Rose (D.faults disk.old) (D.faults disk.new) → ⊥)
        → (result ≡ Status.Done) ⊎ (result ≡ Status.OutOfMemory) }
{
    let Some(said) = read_words(words) else {
        return Status::Usage;
    };
    match said.subcommand {
        Subcommand::Run => run(alloc, said.server, limit, source, sink, disk),
        Subcommand::Check => check(alloc, said.server, sink, disk),
    }
}

/// Answers the lines of the input as its pieces come, each reply on a line of its own, and keeps
/// what is accepted in the journal on the disk, each input before its reply; or counts what the
/// journal has.
///
/// The words are those after the program's name: `run` or `check`, with `--server` and the server's
/// name and `--journal` and a path, which is that of the disk. At most 1,073,741,824 bytes of input
/// are taken, in pieces of at most 65,536 bytes. A last part without a line feed is a line where
/// the input ended. With [`Status::ReadFault`] and [`Status::InputLimit`] each line that ended
/// before has its reply, and a part of a line has none.
pub fn serve<S: Source, K: Sink, D: Disk>(
    alloc: Global,
    words: &[String],
    source: &mut S,
    sink: &mut K,
    disk: &mut D,
) -> Status
    ensures usage { ((subcommand : Subcommand) (server journal : List ℕ)
        → AreWordsOf (map string_bytes words.now) subcommand server journal → ⊥)
        → result ≡ Status.Usage }
    ensures only_usage { result ≡ Status.Usage → (subcommand : Subcommand) (server journal : List ℕ)
        → AreWordsOf (map string_bytes words.now) subcommand server journal → ⊥ }
    ensures reads_nothing { result ≡ Status.Usage → source.new ≡ source.old }
    ensures writes_nothing { result ≡ Status.Usage → sink.new ≡ sink.old }
    ensures touches_nothing { result ≡ Status.Usage → disk.new ≡ disk.old }

    ensures lawful { (server journal content : List ℕ) (h0 : History)
        → AreWordsOf (map string_bytes words.now) Subcommand.Run server journal
        → D.seen disk.old ≡ Some content → StandsFor server content h0
        → HasLawfulRunOf (2 ^ 30) server h0 (S.left source.old) (S.left source.new)
        (K.taken sink.old) (K.taken sink.new) result
        (LeavesSince D.may_leave D.moment D.left_since server disk.new
        (record { disk = disk.old; content = content; history = h0 })) }

    ensures not_a_journal { (subcommand : Subcommand) (server journal content : List ℕ)
        → AreWordsOf (map string_bytes words.now) subcommand server journal
        → D.seen disk.old ≡ Some content → result ≡ Status.NotAJournal
        → TellsFault server content (K.taken sink.old) (K.taken sink.new) }
    ensures no_journal { (subcommand : Subcommand) (server journal content : List ℕ) (offset : ℕ)
        → AreWordsOf (map string_bytes words.now) subcommand server journal
        → D.seen disk.old ≡ Some content → HasFirstFaultAt server content offset
        → (Rose (K.faults sink.old) (K.faults sink.new) → ⊥)
        → (Rose (D.faults disk.old) (D.faults disk.new) → ⊥)
        → (result ≡ Status.NotAJournal) ⊎ (result ≡ Status.OutOfMemory) }

    ensures tallied { (server journal content : List ℕ)
        → AreWordsOf (map string_bytes words.now) Subcommand.Check server journal
        → D.seen disk.old ≡ Some content → result ≡ Status.Done
        → TellsTally server content (K.taken sink.old) (K.taken sink.new) }
    ensures only_reads { (server journal content : List ℕ)
        → AreWordsOf (map string_bytes words.now) Subcommand.Check server journal
        → D.seen disk.old ≡ Some content
        → OnlyReads D.same_disk D.seen D.may_leave D.moment D.left_since disk.old disk.new }
    ensures check_reads_nothing { (server journal : List ℕ)
        → AreWordsOf (map string_bytes words.now) Subcommand.Check server journal
        → source.new ≡ source.old }

    ensures read { result ≡ Status.ReadFault → Rose (S.faults source.old) (S.faults source.new) }
    ensures read_count { S.faults source.old ≤ S.faults source.new }
    ensures read_steady { result ≢ Status.ReadFault → S.faults source.new ≡ S.faults source.old }
    ensures write { result ≡ Status.WriteFault → Rose (K.faults sink.old) (K.faults sink.new) }
    ensures write_count { K.faults sink.old ≤ K.faults sink.new }
    ensures write_steady { result ≢ Status.WriteFault → K.faults sink.new ≡ K.faults sink.old }
    ensures disk_fault { result ≡ Status.DiskFault → Rose (D.faults disk.old) (D.faults disk.new) }
    ensures disk_steady { result ≢ Status.DiskFault → D.faults disk.new ≡ D.faults disk.old }
    ensures same_disk { D.same_disk disk.old disk.new }

    ensures done { (subcommand : Subcommand) (server journal content left : List ℕ) (h : History)
        → AreWordsOf (map string_bytes words.now) subcommand server journal
        → D.seen disk.old ≡ Some content → StandsFor server content h
        → S.left source.old ≡ Some left → length left < 2 ^ 30
        → (Rose (S.faults source.old) (S.faults source.new) → ⊥)
        → (Rose (K.faults sink.old) (K.faults sink.new) → ⊥)
        → (Rose (D.faults disk.old) (D.faults disk.new) → ⊥)
        → (result ≡ Status.Done) ⊎ (result ≡ Status.OutOfMemory) }
{
    serve_within(alloc, words, INPUT_LIMIT, source, sink, disk)
}

/// Answers the lines of the source for the homeserver with this name, to the source's end,
/// its fault or the limit.
fn run<S: Source, K: Sink, D: Disk>(
    alloc: Global,
    server: &str,
    limit: u64,
    source: &mut S,
    sink: &mut K,
    disk: &mut D,
) -> Status
    ensures served { result ≢ Status.Usage }
    ensures lawful { (content : List ℕ) (h0 : History)
        → D.seen disk.old ≡ Some content → StandsFor server.now content h0
        → HasLawfulRunOf limit server.now h0 (S.left source.old) (S.left source.new)
        (K.taken sink.old) (K.taken sink.new) result
        (LeavesSince D.may_leave D.moment D.left_since server.now disk.new
        (record { disk = disk.old; content = content; history = h0 })) }
    ensures not_a_journal { (content : List ℕ)
        → D.seen disk.old ≡ Some content → result ≡ Status.NotAJournal
        → TellsFault server.now content (K.taken sink.old) (K.taken sink.new) }
    ensures no_journal { (content : List ℕ) (offset : ℕ)
        → D.seen disk.old ≡ Some content → HasFirstFaultAt server.now content offset
        → (result ≡ Status.NotAJournal) ⊎ ((result ≡ Status.OutOfMemory)
        ⊎ ((result ≡ Status.WriteFault) ⊎ (result ≡ Status.DiskFault))) }
    ensures read { result ≡ Status.ReadFault → Rose (S.faults source.old) (S.faults source.new) }
    ensures read_count { S.faults source.old ≤ S.faults source.new }
    ensures read_steady { result ≢ Status.ReadFault → S.faults source.new ≡ S.faults source.old }
    ensures write { result ≡ Status.WriteFault → Rose (K.faults sink.old) (K.faults sink.new) }
    ensures write_count { K.faults sink.old ≤ K.faults sink.new }
    ensures write_steady { result ≢ Status.WriteFault → K.faults sink.new ≡ K.faults sink.old }
    ensures disk_fault { result ≡ Status.DiskFault → Rose (D.faults disk.old) (D.faults disk.new) }
    ensures disk_steady { result ≢ Status.DiskFault → D.faults disk.new ≡ D.faults disk.old }
    ensures same_disk { D.same_disk disk.old disk.new }
    ensures limit { (left : List ℕ) → S.left source.old ≡ Some left → result ≡ Status.InputLimit
        → limit ≤ length left }
{
    let Ok(lines) = LineCutter::new(alloc) else {
        return Status::OutOfMemory;
    };
    let Ok(mut pieces) = piece_buffer(alloc) else {
        return Status::OutOfMemory;
    };
    match Store::open(alloc, disk, server) {
        Ok(store) => {
            let mut session = Session::new(alloc, store, lines);
            let status = answer_lines(
                alloc,
                limit,
                source,
                sink,
                &mut session,
                pieces.as_mut_slice(),
            );
            // The loan of the disk ends here, so that it is known what was lent.
            let _disk = session.into_disk();
            status
        }
        Err(error) => tell(alloc, error.cause, sink),
    }
}

/// Answers the lines of the source, to its end, its fault or the limit.
fn answer_lines<S: Source, K: Sink, D: Disk>(
    alloc: Global,
    limit: u64,
    source: &mut S,
    sink: &mut K,
    session: &mut Session<D>,
    buffer: &mut [u8],
) -> Status
    requires some { 0 < length buffer.old }
    requires small { length buffer.old ≤ largest_piece }
    requires lines { session.old.lines ≡ nothing_held }
    requires ready { session.old.store.journal.phase ≡ Phase.Writing }
    ensures served { result ≢ Status.Usage }
    ensures opened { result ≢ Status.NotAJournal }
    ensures lawful { (start : Start D)
        → Stands D.seen D.may_leave D.moment D.left_since session.old.store start start.history
        → HasLawfulRunOf limit session.old.store.server start.history (S.left source.old)
        (S.left source.new)
        (K.taken sink.old) (K.taken sink.new) result
        (LeavesSince D.may_leave D.moment D.left_since session.old.store.server
        session.new.store.journal.disk start) }
    ensures read { result ≡ Status.ReadFault → Rose (S.faults source.old) (S.faults source.new) }
    ensures read_count { S.faults source.old ≤ S.faults source.new }
    ensures read_steady { result ≢ Status.ReadFault → S.faults source.new ≡ S.faults source.old }
    ensures write { result ≡ Status.WriteFault → Rose (K.faults sink.old) (K.faults sink.new) }
    ensures write_count { K.faults sink.old ≤ K.faults sink.new }
    ensures write_steady { result ≢ Status.WriteFault → K.faults sink.new ≡ K.faults sink.old }
    ensures disk_fault { result ≡ Status.DiskFault
        → Rose (D.faults session.old.store.journal.disk) (D.faults session.new.store.journal.disk) }
    ensures disk_steady { result ≢ Status.DiskFault
        → D.faults session.new.store.journal.disk ≡ D.faults session.old.store.journal.disk }
    ensures same_disk { D.same_disk session.old.store.journal.disk session.new.store.journal.disk }
    ensures limit { (left : List ℕ) → S.left source.old ≡ Some left → result ≡ Status.InputLimit
        → limit ≤ length left }
{
    let mut left_of_limit = limit;
    while left_of_limit > 0 {
        match read_piece(source, buffer, left_of_limit) {
            Got::Bytes(count) => {
                if let Err(halt) = session.answer_piece(alloc, &buffer[..count], sink) {
                    return halt.status();
                }
                left_of_limit -= count as u64;
            }
            Got::End => {
                return match session.finish(alloc, sink) {
                    Ok(()) => Status::Done,
                    Err(halt) => halt.status(),
                };
            }
            Got::Failed => return Status::ReadFault,
        }
    }
    Status::InputLimit
}

/// Counts the entries of the journal, and writes the line that tells them.
fn check<K: Sink, D: Disk>(alloc: Global, server: &str, sink: &mut K, disk: &mut D) -> Status
    ensures served { result ≢ Status.Usage }
    ensures not_read { result ≢ Status.ReadFault }
    ensures not_limited { result ≢ Status.InputLimit }
    ensures tallied { (content : List ℕ) → D.seen disk.old ≡ Some content → result ≡ Status.Done
        → TellsTally server.now content (K.taken sink.old) (K.taken sink.new) }
    ensures not_a_journal { (content : List ℕ)
        → D.seen disk.old ≡ Some content → result ≡ Status.NotAJournal
        → TellsFault server.now content (K.taken sink.old) (K.taken sink.new) }
    ensures no_journal { (content : List ℕ) (offset : ℕ)
        → D.seen disk.old ≡ Some content → HasFirstFaultAt server.now content offset
        → result ≢ Status.Done }
    ensures a_journal { (content : List ℕ) (h : History)
        → D.seen disk.old ≡ Some content → StandsFor server.now content h
        → result ≢ Status.NotAJournal }
    ensures only_reads { (content : List ℕ) → D.seen disk.old ≡ Some content
        → OnlyReads D.same_disk D.seen D.may_leave D.moment D.left_since disk.old disk.new }
    ensures write { result ≡ Status.WriteFault → Rose (K.faults sink.old) (K.faults sink.new) }
    ensures write_count { K.faults sink.old ≤ K.faults sink.new }
    ensures write_steady { result ≢ Status.WriteFault → K.faults sink.new ≡ K.faults sink.old }
    ensures disk_fault { result ≡ Status.DiskFault → Rose (D.faults disk.old) (D.faults disk.new) }
    ensures disk_steady { result ≢ Status.DiskFault → D.faults disk.new ≡ D.faults disk.old }
    ensures same_disk { D.same_disk disk.old disk.new }
{
    match Store::<&mut D, PlainRows>::tally(alloc, disk, server) {
        Ok(tallied) => {
            let mut line = Vec::new(alloc);
            if tally_into(
                alloc,
                tallied.tally.entries,
                tallied.tally.inputs,
                &mut line,
            )
            .is_err()
            {
                return Status::OutOfMemory;
            }
            match write_all(sink, line.as_slice()) {
                Ok(()) => Status::Done,
                Err(Failed) => Status::WriteFault,
            }
        }
        Err(error) => tell(alloc, error.cause, sink),
    }
}

/// Says how a call ends that can't read the journal,
/// and writes the line that tells the fault of what is none.
fn tell<K: Sink>(alloc: Global, cause: StoreError, sink: &mut K) -> Status
    ensures ends { EndsOn cause result }
    ensures told { (offset : ℕ) → cause ≡ StoreError.NotAJournal offset
        → result ≡ Status.NotAJournal
        → Writes (K.taken sink.old) (K.taken sink.new) (λ out. out ≡ fault_line offset) }
    ensures silent { ((offset : ℕ) → cause ≡ StoreError.NotAJournal offset → ⊥)
        → sink.new ≡ sink.old }
    ensures write { result ≡ Status.WriteFault → Rose (K.faults sink.old) (K.faults sink.new) }
    ensures write_count { K.faults sink.old ≤ K.faults sink.new }
    ensures write_steady { result ≢ Status.WriteFault → K.faults sink.new ≡ K.faults sink.old }
{
    match cause {
        StoreError::NotAJournal(offset) => {
            let mut line = Vec::new(alloc);
            if fault_into(alloc, offset, &mut line).is_err() {
                return Status::OutOfMemory;
            }
            match write_all(sink, line.as_slice()) {
                Ok(()) => Status::NotAJournal,
                Err(Failed) => Status::WriteFault,
            }
        }
        StoreError::DiskFault => Status::DiskFault,
        StoreError::OutOfMemory => Status::OutOfMemory,
    }
}
