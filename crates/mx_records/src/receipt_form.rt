//! The input that a receipt is, read from the object of its command.

ghost use Rattle.std.specs.Prelude.{◌≡◌, true, is_some, unwrap_or, IfOk};
ghost use Rattle.mx_json.specs.Gives.{Gives};
ghost use Rattle.mx_json.specs.Ids.{is_event_id, is_room_id};
ghost use Rattle.mx_json.specs.Json.{is_valid};
ghost use Rattle.mx_rows.specs.declared.thread_key.ThreadKey.TheVariants.{Main};
ghost use Rattle.mx_records.specs.Forms.{checked, event_id_in, room_id_in, value_of_form};
ghost use Rattle.mx_records.specs.Forms.{given_thread, has_thread_or_none, privacy_in};
ghost use Rattle.mx_records.specs.Forms.{privacy_named, thread_named};
ghost use Rattle.mx_records.specs.Forms.{read_form, receipt_form};
ghost use Rattle.mx_records.specs.Rules.{is_valid_input};

use crate::edit_form::read_user;
use crate::field_name::FieldName;
use crate::input::Input;
use crate::input_error::InputError;
use mx_json::{EventId, IdError, Json, RoomId, UserId};
use mx_rows::ThreadKey;
use std::alloc::Global;

/// The input of an object whose word is `receipt`.
pub(crate) fn read_receipt(alloc: Global, json: &Json) -> Result<Input, InputError>
    requires { is_valid json.now ≡ true }
    ensures input { Gives InputError.OutOfMemory result
        (value_of_form InputError.BadField (receipt_form json.now)) }
    ensures valid { IfOk result (λ input. is_valid_input input ≡ true) }
{
    let (user, room, event) = read_what(alloc, json)?;
    let Some(private) = read_privacy(json) else {
        return Err(InputError::BadField(FieldName::ReceiptKind));
    };
    let thread = read_thread(alloc, json)?;
    Ok(Input::Receipt {
        user,
        room,
        event,
        private,
        thread,
    })
}

/// Who read, in which room, and up to which event.
fn read_what(alloc: Global, json: &Json) -> Result<(UserId, RoomId, EventId), InputError>
    requires { is_valid json.now ≡ true }
    ensures { Gives InputError.OutOfMemory result
        (value_of_form InputError.BadField (read_form json.now)) }
{
    let user = read_user(alloc, json)?;
    let room = read_room(alloc, json)?;
    let event = read_event_id(alloc, json)?;
    Ok((user, room, event))
}

/// The room that was read.
fn read_room(alloc: Global, json: &Json) -> Result<RoomId, InputError>
    requires { is_valid json.now ≡ true }
    ensures { Gives InputError.OutOfMemory result
        (checked FieldName.RoomId (is_room_id (room_id_in json.now)) (room_id_in json.now)) }
{
    match RoomId::read(alloc, json.text_or_empty("room_id")) {
        Ok(room) => Ok(room),
        Err(IdError::BadId) => Err(InputError::BadField(FieldName::RoomId)),
        Err(IdError::OutOfMemory) => Err(InputError::OutOfMemory),
    }
}

/// The last event that was read.
fn read_event_id(alloc: Global, json: &Json) -> Result<EventId, InputError>
    requires { is_valid json.now ≡ true }
    ensures { Gives InputError.OutOfMemory result
        (checked FieldName.EventId (is_event_id (event_id_in json.now)) (event_id_in json.now)) }
{
    match EventId::read(alloc, json.text_or_empty("event_id")) {
        Ok(event) => Ok(event),
        Err(IdError::BadId) => Err(InputError::BadField(FieldName::EventId)),
        Err(IdError::OutOfMemory) => Err(InputError::OutOfMemory),
    }
}

/// Whether the receipt is private; `None` where its type isn't that of a receipt.
fn read_privacy(json: &Json) -> Option<bool>
    requires { is_valid json.now ≡ true }
    ensures { result ≡ privacy_in json.now }
{
    privacy_named(json.text_at("type")?)
}

/// Whether receipts of this type are private.
#[tactic(auto, unfolding(crate::specs::Forms::privacy_named))]
fn privacy_named(text: &str) -> Option<bool>
    ensures { result ≡ privacy_named text.now }
{
    match text {
        "m.read" => Some(false),
        "m.read.private" => Some(true),
        _ => None,
    }
}

/// The thread that was read, if one is named.
fn read_thread(alloc: Global, json: &Json) -> Result<Option<ThreadKey>, InputError>
    requires { is_valid json.now ≡ true }
    ensures { Gives InputError.OutOfMemory result
        (checked FieldName.ThreadId (has_thread_or_none json.now) (given_thread json.now)) }
{
    match json.member("thread_id") {
        None => Ok(None),
        Some(Json::Text(text)) => Ok(Some(thread_named(alloc, text.as_str())?)),
        Some(_) => Err(InputError::BadField(FieldName::ThreadId)),
    }
}

/// The thread that a text names.
#[tactic(auto, unfolding(crate::specs::Forms::thread_named))]
fn thread_named(alloc: Global, text: &str) -> Result<ThreadKey, InputError>
    ensures { Gives InputError.OutOfMemory result
        (checked FieldName.ThreadId (is_some (thread_named text.now))
        (unwrap_or (thread_named text.now) Main)) }
{
    if text == "main" {
        return Ok(ThreadKey::Main);
    }
    match EventId::read(alloc, text) {
        Ok(root) => Ok(ThreadKey::Root(root)),
        Err(IdError::BadId) => Err(InputError::BadField(FieldName::ThreadId)),
        Err(IdError::OutOfMemory) => Err(InputError::OutOfMemory),
    }
}
