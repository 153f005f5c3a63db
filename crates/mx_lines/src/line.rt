ghost use Rattle.std.specs.Prelude.{◌≡◌, ◌≢◌, ◌≤◌, true, length, IfOk, Some, MatchOption, false};
ghost use Rattle.mx_json.specs.Json.{is_valid};
ghost use Rattle.mx_records.specs.declared.input.Input.{Input};
ghost use Rattle.mx_records.specs.Forms.{Form, input_form_in};
ghost use Rattle.mx_records.specs.InputWords.{input_word_in};
ghost use Rattle.mx_lines.specs.Cutting.{longest_line};
ghost use Rattle.mx_lines.specs.Commands.{command_of, command_in, question_in, command_by};
ghost use Rattle.mx_lines.specs.Commands.{input_form, counts_form, rules_form, IsReady};
ghost use Rattle.mx_lines.specs.Commands.{has_threads_or_none, threads_in, ReadsAs};

use crate::command::{Command, LineError, LineRefusal};
use crate::question_word::QuestionWord;
use mx_json::{IdError, Json, JsonError, RoomId, UserId};
use mx_records::{FieldName, Input, InputError, InputWord};
use std::alloc::Global;

#[cfg(test)]
mod tests;

/// How deep a line may be nested.
const DEEPEST_LINE: u32 = 100;

/// Reads a line of at most 131,072 bytes, without its line feed.
///
/// # Errors
///
/// `Refused` with the first refusal that applies: `BadLine` exactly where it isn't JSON or is
/// nested deeper than 100; `NotWhole` exactly where a number in it isn't whole; `BadField` with
/// the first field that is missing or wrong, `cmd` being looked at first; `NotBuilt` exactly
/// where its command's word is stated and the command isn't built. `OutOfMemory` where the
/// allocator has none.
#[tactic(auto, unfolding(crate::specs::Commands::command_of))]
pub fn read(alloc: Global, line: &[u8]) -> Result<Command, LineError>
    requires { length line.now ≤ longest_line }
    ensures command { ReadsAs (command_of line.now) result }
    ensures ready { IfOk result IsReady }
{
    match Json::from_text(alloc, line, DEEPEST_LINE) {
        Ok(value) => read_command(alloc, value),
        Err(JsonError::BadJson) => Err(LineError::Refused(LineRefusal::BadLine)),
        Err(JsonError::NotWhole) => Err(LineError::Refused(LineRefusal::NotWhole)),
        Err(JsonError::OutOfMemory) => Err(LineError::OutOfMemory),
    }
}

/// The command that the line's value gives.
#[tactic(auto, unfolding(crate::specs::Commands::command_in))]
fn read_command(alloc: Global, line: Json) -> Result<Command, LineError>
    requires { is_valid line ≡ true }
    ensures command { ReadsAs (command_in line) result }
    ensures ready { IfOk result IsReady }
{
    match InputWord::of(&line) {
        Some(word) => read_input_of(alloc, line, word),
        None => read_question(alloc, &line),
    }
}

/// The command of a line whose word is this one of an input.
fn read_input_of(alloc: Global, line: Json, word: InputWord) -> Result<Command, LineError>
    requires valid { is_valid line ≡ true }
    requires word { input_word_in line ≡ Some word }
    ensures command { ReadsAs (command_in line) result }
    ensures ready { IfOk result IsReady }
{
    match word {
        InputWord::Pusher => Err(LineError::Refused(LineRefusal::NotBuilt)),
        _ => read_input(alloc, line),
    }
}

/// The command of an input whose form is built.
fn read_input(alloc: Global, line: Json) -> Result<Command, LineError>
    requires valid { is_valid line ≡ true }
    requires built { input_word_in line ≢ Some InputWord.Pusher }
    ensures command { (form : Form Input) → input_form_in line ≡ Some form
        → ReadsAs (command_by (input_form form)) result }
    ensures ready { IfOk result IsReady }
{
    match Input::from_json(alloc, line) {
        Ok(input) => Ok(Command::Input(input)),
        Err(InputError::BadField(field)) => Err(bad_field(field)),
        Err(InputError::OutOfMemory) => Err(LineError::OutOfMemory),
    }
}

/// The command of a line whose word is no input's.
#[tactic(auto, unfolding(crate::specs::Commands::question_in))]
fn read_question(alloc: Global, line: &Json) -> Result<Command, LineError>
    requires { is_valid line.now ≡ true }
    ensures command { ReadsAs (question_in line.now) result }
    ensures ready { IfOk result IsReady }
{
    match QuestionWord::of(line) {
        Some(QuestionWord::Counts) => read_counts(alloc, line),
        Some(QuestionWord::Rules) => read_rules(alloc, line),
        Some(_) => Err(LineError::Refused(LineRefusal::NotBuilt)),
        None => Err(bad_field(FieldName::Cmd)),
    }
}

fn bad_field(field: FieldName) -> LineError
    ensures { result ≡ LineError.Refused (LineRefusal.BadField field) }
{
    LineError::Refused(LineRefusal::BadField(field))
}

/// The command of a `counts` line.
fn read_counts(alloc: Global, line: &Json) -> Result<Command, LineError>
    requires { is_valid line.now ≡ true }
    ensures command { ReadsAs (command_by (counts_form line.now)) result }
    ensures ready { IfOk result IsReady }
{
    let user = match UserId::read(alloc, line.text_or_empty("user")) {
        Ok(user) => user,
        Err(IdError::BadId) => return Err(bad_field(FieldName::User)),
        Err(IdError::OutOfMemory) => return Err(LineError::OutOfMemory),
    };
    let room = match RoomId::read(alloc, line.text_or_empty("room_id")) {
        Ok(room) => room,
        Err(IdError::BadId) => return Err(bad_field(FieldName::RoomId)),
        Err(IdError::OutOfMemory) => return Err(LineError::OutOfMemory),
    };
    match read_threads(line) {
        Some(threads) => Ok(Command::Counts {
            user,
            room,
            threads,
        }),
        None => Err(bad_field(FieldName::Threads)),
    }
}

/// The command of a `rules` line.
fn read_rules(alloc: Global, line: &Json) -> Result<Command, LineError>
    requires { is_valid line.now ≡ true }
    ensures command { ReadsAs (command_by (rules_form line.now)) result }
    ensures ready { IfOk result IsReady }
{
    match UserId::read(alloc, line.text_or_empty("user")) {
        Ok(user) => Ok(Command::Rules { user }),
        Err(IdError::BadId) => Err(bad_field(FieldName::User)),
        Err(IdError::OutOfMemory) => Err(LineError::OutOfMemory),
    }
}

/// Whether the counts are asked for thread by thread; nothing where `threads` is wrong.
fn read_threads(line: &Json) -> Option<bool>
    requires { is_valid line.now ≡ true }
    ensures { MatchOption result (has_threads_or_none line.now ≡ false)
        (λ threads. (has_threads_or_none line.now ≡ true) × (threads_in line.now ≡ threads)) }
{
    match line.member("threads") {
        Some(Json::Truth(threads)) => Some(*threads),
        Some(_) => None,
        None => Some(true),
    }
}
