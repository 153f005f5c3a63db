ghost use Rattle.std.specs.Prelude.{◌≡◌, ◌≢◌, ℕ, ◌+◌, ◌≤◌, ◌++◌, false, true, List, OnOk};
ghost use Rattle.mx_lines.specs.Cutting.{nothing_held, IsShort, shown_count};
ghost use Rattle.mx_outside.specs.Told.{Writes, Rose};
ghost use Rattle.mx_lines.specs.Runs.{Run, input_lines};
ghost use Rattle.push_server.specs.Crash.{LeavesSince, Stands, Start};
ghost use Rattle.push_server.specs.Steps.{GoesOn, ShowsNext, StepsTo, AnswersUpTo, AnswersPiece};
ghost use Rattle.push_server.specs.Steps.{AnswersAll};

use crate::answer::answer;
use crate::halt::Halt;
use crate::writing::write_all;
use mx_journal::Phase;
use mx_lines::{Cut, LineCutter};
use mx_outside::{Disk, Sink};
use mx_rows::PlainRows;
use mx_store::Store;
use std::alloc::Global;

/// One run of the server, between two pieces of its input.
#[derive(Drop)]
pub struct Session<D: Disk> {
    store: Store<D, PlainRows>,
    lines: LineCutter,
    reply: Vec<u8>,
}

impl<D: Disk> Session<D> {
    /// The run over a store that was opened, before any input.
    pub fn new(alloc: Global, store: Store<D, PlainRows>, lines: LineCutter) -> Session<D>
        ensures store { result.store ≡ store }
        ensures lines { result.lines ≡ lines }
    {
        Session {
            store,
            lines,
            reply: Vec::new(alloc),
        }
    }

    /// Gives the disk back.
    pub fn into_disk(self) -> D
        ensures { result ≡ self.store.journal.disk }
    {
        self.store.into_disk()
    }

    /// Answers each line that ends in this piece, and keeps the part of a line that follows.
    pub fn answer_piece<K: Sink>(
        &mut self,
        alloc: Global,
        piece: &[u8],
        sink: &mut K,
    ) -> Result<(), Halt>
        requires cut { self.old.lines.ended ≡ false }
        requires ready { self.old.store.journal.phase ≡ Phase.Writing }
        ensures cut { OnOk result (self.new.lines.ended ≡ false) }
        ensures ready { OnOk result (self.new.store.journal.phase ≡ Phase.Writing) }
        ensures server { self.new.store.server ≡ self.old.store.server }
        ensures extends { (start : Start D) (run : Run) (bytes : List ℕ)
            → run.input ≡ bytes ++ piece.now
            → AnswersUpTo bytes self.old.store.server start.history run
            (Stands D.seen D.may_leave D.moment D.left_since self.old.store start)
            self.old.lines
            → Writes (K.taken sink.old) (K.taken sink.new)
            (AnswersPiece self.old.store.server start.history run result
            (Stands D.seen D.may_leave D.moment D.left_since self.new.store start)
            (LeavesSince D.may_leave D.moment D.left_since self.old.store.server
            self.new.store.journal.disk start)
            self.new.lines) }
        ensures count { K.faults sink.old ≤ K.faults sink.new }
        ensures fault { result ≡ Err Halt.WriteFault
            → Rose (K.faults sink.old) (K.faults sink.new) }
        ensures steady { result ≢ Err Halt.WriteFault → K.faults sink.new ≡ K.faults sink.old }
        ensures disk_fault { result ≡ Err Halt.DiskFault
            → Rose (D.faults self.old.store.journal.disk) (D.faults self.new.store.journal.disk) }
        ensures disk_steady { result ≢ Err Halt.DiskFault
            → D.faults self.new.store.journal.disk ≡ D.faults self.old.store.journal.disk }
        ensures stays { D.same_disk self.old.store.journal.disk self.new.store.journal.disk }
    {
        let mut at = 0;
        while at < piece.len() {
            at += self.lines.feed(&piece[at..]);
            answer_cut(
                alloc,
                &mut self.store,
                self.lines.next(),
                &mut self.reply,
                sink,
            )?;
        }
        Ok(())
    }

    /// Answers what follows the last line feed, unless that is nothing.
    pub fn finish<K: Sink>(&mut self, alloc: Global, sink: &mut K) -> Result<(), Halt>
        requires cut { self.old.lines.ended ≡ false }
        requires ready { self.old.store.journal.phase ≡ Phase.Writing }
        ensures server { self.new.store.server ≡ self.old.store.server }
        ensures extends { (start : Start D) (run : Run) → run.ended ≡ true
            → AnswersUpTo run.input self.old.store.server start.history run
            (Stands D.seen D.may_leave D.moment D.left_since self.old.store start)
            self.old.lines
            → Writes (K.taken sink.old) (K.taken sink.new)
            (AnswersAll self.old.store.server start.history run result
            (LeavesSince D.may_leave D.moment D.left_since self.old.store.server
            self.new.store.journal.disk start)) }
        ensures count { K.faults sink.old ≤ K.faults sink.new }
        ensures fault { result ≡ Err Halt.WriteFault
            → Rose (K.faults sink.old) (K.faults sink.new) }
        ensures steady { result ≢ Err Halt.WriteFault → K.faults sink.new ≡ K.faults sink.old }
        ensures disk_fault { result ≡ Err Halt.DiskFault
            → Rose (D.faults self.old.store.journal.disk) (D.faults self.new.store.journal.disk) }
        ensures disk_steady { result ≢ Err Halt.DiskFault
            → D.faults self.new.store.journal.disk ≡ D.faults self.old.store.journal.disk }
        ensures stays { D.same_disk self.old.store.journal.disk self.new.store.journal.disk }
    {
        answer_cut(
            alloc,
            &mut self.store,
            self.lines.finish(),
            &mut self.reply,
            sink,
        )
    }
}

/// Answers the line that is shown, if there is one, its reply written whole,
/// by way of the buffer `reply`.
fn answer_cut<D: Disk, K: Sink>(
    alloc: Global,
    store: &mut Store<D, PlainRows>,
    cut: Cut,
    reply: &mut Vec<u8>,
    sink: &mut K,
) -> Result<(), Halt>
    requires short { IsShort cut }
    requires ready { store.old.journal.phase ≡ Phase.Writing }
    ensures ready { OnOk result (store.new.journal.phase ≡ Phase.Writing) }
    ensures server { store.new.server ≡ store.old.server }
    ensures extends { (start : Start D) (run : Run) (answered : ℕ)
        → GoesOn store.old.server start.history run
        (Stands D.seen D.may_leave D.moment D.left_since store.old start) answered
        → ShowsNext cut.entry (input_lines run) answered
        → Writes (K.taken sink.old) (K.taken sink.new)
        (StepsTo store.old.server start.history run (answered + shown_count cut.entry) result
        (Stands D.seen D.may_leave D.moment D.left_since store.new start)
        (LeavesSince D.may_leave D.moment D.left_since store.old.server
        store.new.journal.disk start)) }
    ensures count { K.faults sink.old ≤ K.faults sink.new }
    ensures fault { result ≡ Err Halt.WriteFault → Rose (K.faults sink.old) (K.faults sink.new) }
    ensures steady { result ≢ Err Halt.WriteFault → K.faults sink.new ≡ K.faults sink.old }
    ensures disk_fault { result ≡ Err Halt.DiskFault
        → Rose (D.faults store.old.journal.disk) (D.faults store.new.journal.disk) }
    ensures disk_steady { result ≢ Err Halt.DiskFault
        → D.faults store.new.journal.disk ≡ D.faults store.old.journal.disk }
    ensures stays { D.same_disk store.old.journal.disk store.new.journal.disk }
{
    reply.clear();
    answer(alloc, store, cut, reply)?;
    write_all(sink, reply.as_slice())?;
    Ok(())
}
