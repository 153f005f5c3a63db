ghost use Rattle.std.specs.Prelude.{◌≡◌, true};
ghost use Rattle.mx_json.specs.Gives.{Gives};
ghost use Rattle.mx_json.specs.Ids.{is_event_id, is_room_id, is_user_id};
ghost use Rattle.mx_json.specs.Json.{is_valid};
ghost use Rattle.mx_event.specs.Event.{checked, event_id_of, fields_after_the_ids, first_wrong};
ghost use Rattle.mx_event.specs.Event.{has_content, has_kind, has_state_key_or_none, is_short_text};
ghost use Rattle.mx_event.specs.Event.{room_id_of, sender_of};

use crate::error::{EventError, EventField};
use mx_json::{EventId, IdError, Json, RoomId, UserId};
use std::alloc::Global;

pub fn event_id_in(alloc: Global, json: &Json) -> Result<EventId, EventError>
    requires { is_valid json.now ≡ true }
    ensures { Gives EventError.OutOfMemory result
        (checked EventField.EventId (is_event_id (event_id_of json.now)) (event_id_of json.now)) }
{
    match EventId::read(alloc, json.text_or_empty("event_id")) {
        Ok(id) => Ok(id),
        Err(IdError::BadId) => Err(EventError::BadEvent(EventField::EventId)),
        Err(IdError::OutOfMemory) => Err(EventError::OutOfMemory),
    }
}

pub fn room_id_in(alloc: Global, json: &Json) -> Result<RoomId, EventError>
    requires { is_valid json.now ≡ true }
    ensures { Gives EventError.OutOfMemory result
        (checked EventField.RoomId (is_room_id (room_id_of json.now)) (room_id_of json.now)) }
{
    match RoomId::read(alloc, json.text_or_empty("room_id")) {
        Ok(id) => Ok(id),
        Err(IdError::BadId) => Err(EventError::BadEvent(EventField::RoomId)),
        Err(IdError::OutOfMemory) => Err(EventError::OutOfMemory),
    }
}

pub fn sender_in(alloc: Global, json: &Json) -> Result<UserId, EventError>
    requires { is_valid json.now ≡ true }
    ensures { Gives EventError.OutOfMemory result
        (checked EventField.Sender (is_user_id (sender_of json.now)) (sender_of json.now)) }
{
    match UserId::read(alloc, json.text_or_empty("sender")) {
        Ok(id) => Ok(id),
        Err(IdError::BadId) => Err(EventError::BadEvent(EventField::Sender)),
        Err(IdError::OutOfMemory) => Err(EventError::OutOfMemory),
    }
}

// The first of the fields after the ids that is wrong.
pub fn first_wrong_after_the_ids(json: &Json) -> Option<EventField>
    requires { is_valid json.now ≡ true }
    ensures { result ≡ first_wrong (fields_after_the_ids json.now) }
{
    if !has_kind(json) {
        return Some(EventField::Kind);
    }
    if !has_content(json) {
        return Some(EventField::Content);
    }
    if !has_state_key_or_none(json) {
        return Some(EventField::StateKey);
    }
    None
}

fn has_kind(json: &Json) -> bool
    requires { is_valid json.now ≡ true }
    ensures { result ≡ has_kind json.now }
{
    match json.member("type") {
        Some(kind) => is_short_text(kind),
        None => false,
    }
}

fn has_content(json: &Json) -> bool
    requires { is_valid json.now ≡ true }
    ensures { result ≡ has_content json.now }
{
    match json.member("content") {
        Some(content) => content.is_object(),
        None => false,
    }
}

fn has_state_key_or_none(json: &Json) -> bool
    requires { is_valid json.now ≡ true }
    ensures { result ≡ has_state_key_or_none json.now }
{
    match json.member("state_key") {
        Some(state_key) => is_short_text(state_key),
        None => true,
    }
}

fn is_short_text(json: &Json) -> bool
    ensures { result ≡ is_short_text json.now }
{
    match json.as_text() {
        Some(text) => text.len() <= 255,
        None => false,
    }
}
