//! The room in which the messages are judged, and their events.

use anyhow::Result;
use mx_event::Event;
use mx_json::{Json, OutOfMemory};
use mx_room::Room;
use std::alloc::Global;

/// How many are in the room.
const MEMBERS: u32 = 20;

/// The sender of the messages makes the room, and so may call all who are in it.
const CREATED: &str =
    r#"{"content":{},"event_id":"$0","room_id":"!r:example.org","sender":"@a:example.org","state_key":"","type":"m.room.create"}"#;

/// A message with this content.
pub fn event(alloc: Global, content: &str) -> Result<Event> {
    let text = format!(in alloc;
        r#"{{"content":{content},"event_id":"$1","room_id":"!r:example.org","sender":"@a:example.org","type":"m.room.message"}}"#
    )?;
    read_event(alloc, text.as_str())
}

fn read_event(alloc: Global, text: &str) -> Result<Event> {
    let json = Json::from_text(alloc, text.as_bytes(), 100)?;
    Ok(Event::from_json(alloc, json)?)
}

/// The room of the first twenty users, each with a name. It has no event of power levels.
pub fn room(alloc: Global) -> Result<Room> {
    let mut room = Room::new(alloc)?;
    take(alloc, &mut room, CREATED)?;
    for number in 0..MEMBERS {
        join(alloc, &mut room, number)?;
    }
    Ok(room)
}

fn join(alloc: Global, room: &mut Room, number: u32) -> Result<()> {
    let text = format!(in alloc;
        r#"{{"content":{{"displayname":"User {number}","membership":"join"}},"event_id":"$1","room_id":"!r:example.org","sender":"@u{number}:example.org","state_key":"@u{number}:example.org","type":"m.room.member"}}"#
    )?;
    take(alloc, room, text.as_str())
}

fn take(alloc: Global, room: &mut Room, text: &str) -> Result<()> {
    let event = read_event(alloc, text)?;
    set(alloc, room, &event)?;
    Ok(())
}

fn set(alloc: Global, room: &mut Room, event: &Event) -> Result<(), OutOfMemory> {
    let plan = room.prepare(alloc, event)?;
    room.apply(plan);
    Ok(())
}
