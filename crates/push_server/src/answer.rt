ghost use Rattle.std.specs.Prelude.{◌≡◌, ◌≢◌, ◌≤◌, length, Ok, Err, OnOk, Some};
ghost use Rattle.mx_outside.specs.Told.{Rose};
ghost use Rattle.mx_records.specs.History.{History};
ghost use Rattle.mx_lines.specs.Cutting.{longest_line, IsShort};
ghost use Rattle.mx_lines.specs.Admission.{admission_of, admission_by, after, after_admission};
ghost use Rattle.mx_lines.specs.Commands.{IsReady, IsReadyInput};
ghost use Rattle.mx_store.specs.Store.{Keeps, Knows};
ghost use Rattle.push_server.specs.Answered.{after_cut, asked_user, IsAnswered};
ghost use Rattle.push_server.specs.Crash.{MovesTo};
ghost use Rattle.push_server.specs.Steps.{AnswersCut};

use mx_engine::Engine;
use mx_journal::Phase;
use mx_json::{OutOfMemory, UserId};
use mx_lines::{Command, Cut, Denial, LineError, denied_into, ok_into, read, reply_into};
use mx_outside::Disk;
use mx_records::{Input, Refusal};
use mx_rows::PlainRows;
use mx_store::{AcceptError, Store};
use std::alloc::Global;

/// Why a line isn't answered.
#[derive(Clone, Copy, Debug, PartialEq, Eq)]
pub enum AnswerError {
    /// The disk failed.
    DiskFault,
    /// There was no memory.
    OutOfMemory,
}

impl From<OutOfMemory> for AnswerError {
    ghost use Rattle.std.specs.Prelude.{◌≡◌};
    ghost use Rattle.push_server.specs.declared.answer.AnswerError.TheVariants as answer;

    ghost from_gives = { λ _ error. error ≡ answer.OutOfMemory };

    fn from(_error: OutOfMemory) -> AnswerError {
        AnswerError::OutOfMemory
    }
}

/// Answers the line that a cut shows, if it shows one: the store goes on with what it asks for, and
/// its reply comes to the end of `out`, with its line feed. After an error nothing is said of what
/// the store knows: the run ends.
pub fn answer<D: Disk>(
    alloc: Global,
    store: &mut Store<D, PlainRows>,
    cut: Cut,
    out: &mut Vec<u8>,
) -> Result<(), AnswerError>
    requires short { IsShort cut }
    requires ready { store.old.journal.phase ≡ Phase.Writing }
    ensures server { store.new.server ≡ store.old.server }
    ensures answered { (h : History) → Knows store.old.server store.old.shown h
        → OnOk result (AnswersCut store.old.server h cut.entry store.new.shown
        out.old.items out.new.items) }
    ensures moves { (h : History) → Keeps D.seen D.may_leave store.old h
        → MovesTo result D.seen D.may_leave D.moment D.left_since store.old store.new
        h (after_cut store.old.server h cut.entry) }
    ensures ready { OnOk result (store.new.journal.phase ≡ Phase.Writing) }
    ensures fault { result ≡ Err AnswerError.DiskFault
        → Rose (D.faults store.old.journal.disk) (D.faults store.new.journal.disk) }
    ensures steady { result ≢ Err AnswerError.DiskFault
        → D.faults store.new.journal.disk ≡ D.faults store.old.journal.disk }
    ensures stays { D.same_disk store.old.journal.disk store.new.journal.disk }
{
    match cut {
        Cut::Line(line) => answer_line(alloc, store, line, out),
        Cut::TooLong => Ok(denied_into(alloc, &Denial::TooLong, out)?),
        Cut::More => Ok(()),
    }
}

/// Answers a line (without its line feed) that isn't too long.
fn answer_line<D: Disk>(
    alloc: Global,
    store: &mut Store<D, PlainRows>,
    line: &[u8],
    out: &mut Vec<u8>,
) -> Result<(), AnswerError>
    requires short { length line.now ≤ longest_line }
    requires ready { store.old.journal.phase ≡ Phase.Writing }
    ensures server { store.new.server ≡ store.old.server }
    ensures answered { (h : History) → Knows store.old.server store.old.shown h
        → OnOk result (IsAnswered store.old.server h (admission_of store.old.server h line.now)
        store.new.shown out.old.items out.new.items) }
    ensures moves { (h : History) → Keeps D.seen D.may_leave store.old h
        → MovesTo result D.seen D.may_leave D.moment D.left_since store.old store.new
        h (after store.old.server h line.now) }
    ensures ready { OnOk result (store.new.journal.phase ≡ Phase.Writing) }
    ensures fault { result ≡ Err AnswerError.DiskFault
        → Rose (D.faults store.old.journal.disk) (D.faults store.new.journal.disk) }
    ensures steady { result ≢ Err AnswerError.DiskFault
        → D.faults store.new.journal.disk ≡ D.faults store.old.journal.disk }
    ensures stays { D.same_disk store.old.journal.disk store.new.journal.disk }
{
    match read(alloc, line) {
        Ok(command) => follow(alloc, store, &command, out),
        Err(LineError::Refused(refusal)) => { Ok(denied_into(alloc, &Denial::Line(refusal), out)?) }
        Err(LineError::OutOfMemory) => Err(AnswerError::OutOfMemory),
    }
}

/// Does what a command asks for, or refuses it, and appends the reply.
fn follow<D: Disk>(
    alloc: Global,
    store: &mut Store<D, PlainRows>,
    command: &Command,
    out: &mut Vec<u8>,
) -> Result<(), AnswerError>
    requires command { IsReady command.now }
    requires ready { store.old.journal.phase ≡ Phase.Writing }
    ensures server { store.new.server ≡ store.old.server }
    ensures answered { (h : History) → Knows store.old.server store.old.shown h
        → OnOk result (IsAnswered store.old.server h
        (admission_by store.old.server h (Ok command.now))
        store.new.shown out.old.items out.new.items) }
    ensures moves { (h : History) → Keeps D.seen D.may_leave store.old h
        → MovesTo result D.seen D.may_leave D.moment D.left_since store.old store.new
        h (after_admission h (admission_by store.old.server h (Ok command.now))) }
    ensures ready { OnOk result (store.new.journal.phase ≡ Phase.Writing) }
    ensures fault { result ≡ Err AnswerError.DiskFault
        → Rose (D.faults store.old.journal.disk) (D.faults store.new.journal.disk) }
    ensures steady { result ≢ Err AnswerError.DiskFault
        → D.faults store.new.journal.disk ≡ D.faults store.old.journal.disk }
    ensures stays { D.same_disk store.old.journal.disk store.new.journal.disk }
{
    match command {
        Command::Input(input) => accept(alloc, store, input, out),
        Command::Counts { user, .. } | Command::Rules { user } => {
            Ok(reply_about(alloc, store.engine(), user, command, out)?)
        }
    }
}

/// Appends the reply to a question about a user, or refuses it where the user isn't local.
fn reply_about(
    alloc: Global,
    engine: &Engine<PlainRows>,
    user: &UserId,
    command: &Command,
    out: &mut Vec<u8>,
) -> Result<(), OutOfMemory>
    requires { asked_user command.now ≡ Some user.now }
    ensures { (h : History) → Knows engine.now.server engine.now.shown h
        → OnOk result (IsAnswered engine.now.server h
        (admission_by engine.now.server h (Ok command.now))
        engine.now.shown out.old.items out.new.items) }
{
    let server = engine.server();
    if !user.is_local(server) {
        return denied_into(alloc, &Denial::Input(Refusal::NotLocal), out);
    }
    reply_into(alloc, engine, server, command, out)
}

/// Accepts an input, or refuses it, and appends the reply.
fn accept<D: Disk>(
    alloc: Global,
    store: &mut Store<D, PlainRows>,
    input: &Input,
    out: &mut Vec<u8>,
) -> Result<(), AnswerError>
    requires input { IsReadyInput input.now }
    requires ready { store.old.journal.phase ≡ Phase.Writing }
    ensures server { store.new.server ≡ store.old.server }
    ensures answered { (h : History) → Knows store.old.server store.old.shown h
        → OnOk result (IsAnswered store.old.server h
        (admission_by store.old.server h (Ok (Command.Input input.now)))
        store.new.shown out.old.items out.new.items) }
    ensures moves { (h : History) → Keeps D.seen D.may_leave store.old h
        → MovesTo result D.seen D.may_leave D.moment D.left_since store.old store.new
        h (after_admission h (admission_by store.old.server h (Ok (Command.Input input.now)))) }
    ensures ready { OnOk result (store.new.journal.phase ≡ Phase.Writing) }
    ensures fault { result ≡ Err AnswerError.DiskFault
        → Rose (D.faults store.old.journal.disk) (D.faults store.new.journal.disk) }
    ensures steady { result ≢ Err AnswerError.DiskFault
        → D.faults store.new.journal.disk ≡ D.faults store.old.journal.disk }
    ensures stays { D.same_disk store.old.journal.disk store.new.journal.disk }
{
    match store.accept(alloc, input) {
        Ok(position) => Ok(ok_into(alloc, position, out)?),
        Err(AcceptError::Refused(refusal)) => {
            Ok(denied_into(alloc, &Denial::Input(refusal), out)?)
        }
        Err(AcceptError::DiskFault) => Err(AnswerError::DiskFault),
        Err(AcceptError::OutOfMemory) => Err(AnswerError::OutOfMemory),
    }
}
