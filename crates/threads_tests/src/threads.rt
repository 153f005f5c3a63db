//! A history of events, each in the thread that its relation leads to.
ghost use Rattle.std.specs.Prelude.{◌≡◌, true};
ghost use Rattle.mx_json.specs.Json.{is_valid};

use crate::fixtures::{event_id, name};
use mx_event::Event;
use mx_json::Json;
use mx_rows::ThreadKey;
use mx_thread::{Place, Threads};
use std::alloc::Global;
use std::process::Abort;

fn json(rt: &impl Abort, alloc: Global, text: &str) -> Json
    ensures { is_valid result ≡ true }
{
    Json::from_text(alloc, text.as_bytes(), 100).expect(rt, text)
}

fn event_of(rt: &impl Abort, alloc: Global, text: &str) -> Event {
    Event::from_json(alloc, json(rt, alloc, text)).expect(rt, text)
}

fn event_text(rt: &impl Abort, alloc: Global, id: &str, room: &str, relation: &str) -> String {
    format!(in alloc;
        r#"{{"content":{{"m.relates_to":{relation}}},"event_id":"{id}","room_id":"{room}","sender":"@a:b","type":"t"}}"#
    ).expect(rt, "an event's text")
}

/// Notes where an event with a new id is.
fn note(rt: &impl Abort, alloc: Global, threads: &mut Threads, event: &Event, place: Place) {
    let id = event.event_id();
    threads.reserve(alloc, id).expect(rt, "memory");
    if threads.place_of(id).is_none() {
        threads.note(id, place);
    } else {
        rt.panic("a known id");
    }
}

/// The thread of an event, which is then noted at this position.
fn accept(
    rt: &impl Abort,
    alloc: Global,
    threads: &mut Threads,
    event: &Event,
    position: u64,
) -> ThreadKey {
    let thread = threads.of(alloc, event).expect(rt, "memory");
    let place = Place {
        position,
        room: event.room_id().copied(alloc).expect(rt, "memory"),
        thread: thread.copied(alloc).expect(rt, "memory"),
    };
    note(rt, alloc, threads, event, place);
    thread
}

/// The position of the event with this id and its thread's name, and 0 where it isn't known.
fn found<'a>(rt: &impl Abort, alloc: Global, threads: &'a Threads, id: &str) -> (u64, &'a str) {
    match threads.place_of(&event_id(rt, alloc, id)) {
        Some(place) => (place.position, name(&place.thread)),
        None => (0, ""),
    }
}

#[test]
fn each_event_is_in_its_thread(rt: HostRuntime) {
    let mut threads = Threads::new(rt.alloc());
    for (k, (id, room, relation, wanted)) in HISTORY.iter().enumerate() {
        let text = event_text(&rt, rt.alloc(), id, room, relation);
        let event = event_of(&rt, rt.alloc(), text.as_str());
        let position = k as u64 + 1;
        let thread = accept(&rt, rt.alloc(), &mut threads, &event, position);
        assert_eq!(rt; name(&thread), *wanted, "at {text}");
        assert_eq!(rt;
            found(&rt, rt.alloc(), &threads, id),
            (position, *wanted),
            "at {id}"
        );
    }
    assert_eq!(rt; found(&rt, rt.alloc(), &threads, "$zz"), (0, ""));
}

#[rattlefmt::skip]
static HISTORY: [(&str, &str, &str, &str); 13] = [
    ("$1", "!r", r#"{}"#, "main"),
    // A thread, a reaction to an event in it, and a reaction to that.
    ("$2", "!r", r#"{"event_id":"$1","rel_type":"m.thread"}"#, "$1"),
    ("$3", "!r", r#"{"event_id":"$2","rel_type":"m.annotation"}"#, "$1"),
    ("$4", "!r", r#"{"event_id":"$3","rel_type":"m.annotation"}"#, "$1"),
    // The root is in the main thread until it says otherwise.
    ("$5", "!r", r#"{"event_id":"$1","rel_type":"m.annotation"}"#, "main"),
    // A reaction to an unknown event, to one of another room, to a later one.
    ("$6", "!r", r#"{"event_id":"$zz","rel_type":"m.annotation"}"#, "main"),
    ("$7", "!q", r#"{"event_id":"$2","rel_type":"m.annotation"}"#, "main"),
    ("$8", "!r", r#"{"event_id":"$9","rel_type":"m.annotation"}"#, "main"),
    ("$9", "!r", r#"{"event_id":"$2","rel_type":"m.thread"}"#, "$2"),
    // What is no relation.
    ("$10", "!r", r#"{"event_id":"$2","rel_type":7}"#, "main"),
    ("$11", "!r", r#"{"event_id":"2","rel_type":"m.thread"}"#, "main"),
    ("$12", "!r", r#"{"event_id":"2","rel_type":"m.annotation"}"#, "main"),
    ("$13", "!r", r#"{"rel_type":"m.thread"}"#, "main"),
];
