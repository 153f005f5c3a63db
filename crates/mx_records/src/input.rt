ghost use Rattle.std.specs.Prelude.{◌≡◌, true, IfOk};
ghost use Rattle.mx_json.specs.Gives.{Gives};
ghost use Rattle.mx_json.specs.Json.{is_valid};
ghost use Rattle.mx_records.specs.Rules.{is_valid_input};
ghost use Rattle.mx_records.specs.Normal.{IsNormal};
ghost use Rattle.mx_records.specs.Forms.{event_in, name_in_event, event_form, input_in};
ghost use Rattle.mx_records.specs.Forms.{value_of_form};

use crate::edit_form::{read_delete, read_enable, read_put, read_set_actions};
use crate::pusher_form::read_pusher;
use crate::receipt_form::read_receipt;
use crate::{FieldName, InputError, InputWord, PusherSpec};
use mx_event::{Event, EventError, EventField};
use mx_json::{EventId, Json, RoomId, UserId};
use mx_rows::ThreadKey;
use mx_rule::Edit;
use std::alloc::Global;

/// What a history is made of.
#[derive(Drop)]
pub enum Input {
    /// An event of a room.
    Event(Event),
    /// An edit of a user's push rules, in force from the next event on.
    Edit {
        /// Whose rules are edited.
        user: UserId,
        /// The edit.
        edit: Edit,
    },
    /// A user read a room, or a thread of it, up to an event.
    Receipt {
        /// Who read it.
        user: UserId,
        /// The room.
        room: RoomId,
        /// The last event that was read.
        event: EventId,
        /// Whether the receipt is kept from the room's other members, `m.read.private`.
        private: bool,
        /// The thread that was read; `None` where all of the room was.
        thread: Option<ThreadKey>,
    },
    /// A user sets a pusher, or takes it away.
    Pusher(PusherSpec),
}

impl Input {
    /// The input that a JSON value is, its word under `cmd`.
    ///
    /// # Errors
    ///
    /// `BadField` with the first field that is missing or wrong: `cmd` first, which is wrong where
    /// its word is not that of an input. `OutOfMemory` where the allocator has none.
    pub fn from_json(alloc: Global, json: Json) -> Result<Input, InputError>
        requires { is_valid json ≡ true }
        ensures input { Gives InputError.OutOfMemory result (input_in json) }
        ensures valid { IfOk result (λ input. is_valid_input input ≡ true) }
        ensures normal { IfOk result IsNormal }
    {
        read_by_word(alloc, json)
    }
}

/// The input of an object, by the form that its word asks for.
#[tactic(auto, unfolding(crate::specs::Forms::input_in))]
fn read_by_word(alloc: Global, json: Json) -> Result<Input, InputError>
    requires { is_valid json ≡ true }
    ensures input { Gives InputError.OutOfMemory result (input_in json) }
    ensures valid { IfOk result (λ input. is_valid_input input ≡ true) }
{
    match InputWord::of(&json) {
        Some(InputWord::Event) => read_event(alloc, json),
        Some(InputWord::RulePut) => read_put(alloc, &json),
        Some(InputWord::RuleDelete) => read_delete(alloc, &json),
        Some(InputWord::RuleEnable) => read_enable(alloc, &json),
        Some(InputWord::RuleActions) => read_set_actions(alloc, &json),
        Some(InputWord::Receipt) => read_receipt(alloc, &json),
        Some(InputWord::Pusher) => read_pusher(alloc, &json),
        None => Err(InputError::BadField(FieldName::Cmd)),
    }
}

/// The input of an object whose word is `event`.
fn read_event(alloc: Global, json: Json) -> Result<Input, InputError>
    requires { is_valid json ≡ true }
    ensures { Gives InputError.OutOfMemory result
        (value_of_form InputError.BadField (event_form json)) }
{
    match Event::from_json(alloc, take_event(json)) {
        Ok(event) => Ok(Input::Event(event)),
        Err(EventError::BadEvent(field)) => Err(InputError::BadField(name_in_event(field))),
        Err(EventError::OutOfMemory) => Err(InputError::OutOfMemory),
    }
}

/// Moves the value of `event` out of the object.
fn take_event(json: Json) -> Json
    requires { is_valid json ≡ true }
    ensures value { result ≡ event_in json }
    ensures valid { is_valid result ≡ true }
{
    let Json::Object(members) = json else {
        return Json::Null;
    };
    match members.into_member("event") {
        Some(event) => event,
        None => Json::Null,
    }
}

/// The name of an event's field, seen from the object that holds the event.
fn name_in_event(field: EventField) -> FieldName
    ensures { result ≡ name_in_event field }
{
    match field {
        EventField::EventId => FieldName::EventEventId,
        EventField::RoomId => FieldName::EventRoomId,
        EventField::Sender => FieldName::EventSender,
        EventField::Kind => FieldName::EventKind,
        EventField::Content => FieldName::EventContent,
        EventField::StateKey => FieldName::EventStateKey,
    }
}
