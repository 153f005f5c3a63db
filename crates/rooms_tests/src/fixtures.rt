//! Values that tests are made of. A text that can't be read ends the test.
ghost use Rattle.std.specs.Prelude.{◌≡◌, true};
ghost use Rattle.mx_json.specs.Json.{is_valid};

use mx_event::Event;
use mx_json::{Json, UserId};
use mx_room::Room;
use std::alloc::Global;
use std::process::Abort;

/// An event of a room: its sender, its type, its state key if it is a state event, its content.
#[derive(Clone, Copy)]
pub(crate) struct Told(
    pub(crate) &'static str,
    pub(crate) &'static str,
    pub(crate) Option<&'static str>,
    pub(crate) &'static str,
);

fn json(rt: &impl Abort, alloc: Global, text: &str) -> Json
    ensures { is_valid result ≡ true }
{
    match Json::from_text(alloc, text.as_bytes(), 100) {
        Ok(json) => json,
        Err(_) => rt.panic(text),
    }
}

/// The event that tells this.
pub(crate) fn event(rt: &impl Abort, alloc: Global, told: Told) -> Event {
    let text = match told.2 {
        Some(key) => state_text(rt, alloc, told, key),
        None => message_text(rt, alloc, told),
    };
    event_of(rt, alloc, text.as_str())
}

fn event_of(rt: &impl Abort, alloc: Global, text: &str) -> Event {
    Event::from_json(alloc, json(rt, alloc, text)).expect(rt, text)
}

fn state_text(rt: &impl Abort, alloc: Global, told: Told, key: &str) -> String {
    let Told(sender, kind, _, content) = told;
    format!(in alloc;
        r#"{{"content":{content},"event_id":"$1","room_id":"!r:b","sender":"{sender}","state_key":"{key}","type":"{kind}"}}"#
    ).expect(rt, "a state event's text")
}

fn message_text(rt: &impl Abort, alloc: Global, told: Told) -> String {
    let Told(sender, kind, _, content) = told;
    format!(in alloc;
        r#"{{"content":{content},"event_id":"$1","room_id":"!r:b","sender":"{sender}","type":"{kind}"}}"#
    ).expect(rt, "an event's text")
}

/// The user with this id.
pub(crate) fn user(rt: &impl Abort, alloc: Global, id: &str) -> UserId {
    UserId::read(alloc, id).expect(rt, id)
}

/// The room of these events.
pub(crate) fn room(rt: &impl Abort, alloc: Global, events: &[Told]) -> Room {
    let mut room = Room::new(alloc).expect(rt, "a room");
    for told in events {
        take(rt, alloc, &mut room, *told);
    }
    room
}

fn take(rt: &impl Abort, alloc: Global, room: &mut Room, told: Told) {
    let event = event(rt, alloc, told);
    take_event(rt, alloc, room, &event);
}

fn take_event(rt: &impl Abort, alloc: Global, room: &mut Room, event: &Event) {
    let plan = room.prepare(alloc, event).expect(rt, "a plan");
    room.apply(plan);
}
