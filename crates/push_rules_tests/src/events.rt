//! Events, and what is read off one.
use crate::fixtures::{event, json};
use mx_event::{Event, EventError, EventField, Relation};
use std::alloc::Global;
use std::process::Abort;

/// The field that a value is refused for, if it is no event.
fn wrong_field(rt: &impl Abort, alloc: Global, text: &str) -> Option<EventField> {
    match Event::from_json(alloc, json(rt, alloc, text)) {
        Ok(_) => None,
        Err(EventError::BadEvent(field)) => Some(field),
        Err(EventError::OutOfMemory) => rt.panic("no memory"),
    }
}

#[test]
fn the_first_wrong_field(rt: HostRuntime) {
    for (text, wanted) in WRONG_FIELDS {
        assert_eq!(rt;
            wrong_field(&rt, rt.alloc(), text),
            Some(wanted),
            "at {text}"
        );
    }
}

#[rattlefmt::skip]
static WRONG_FIELDS: [(&str, EventField); 19] = [
    // Each field wrong or missing, alone.
    ("[1]", EventField::EventId),
    ("null", EventField::EventId),
    (r#"{"event_id":"1","room_id":"!r","sender":"@a:b","type":"t","content":{}}"#, EventField::EventId),
    (r#"{"room_id":"!r","sender":"@a:b","type":"t","content":{}}"#, EventField::EventId),
    (r#"{"event_id":"$1","room_id":7,"sender":"@a:b","type":"t","content":{}}"#, EventField::RoomId),
    (r#"{"event_id":"$1","sender":"@a:b","type":"t","content":{}}"#, EventField::RoomId),
    (r#"{"event_id":"$1","room_id":"!r","sender":"@a","type":"t","content":{}}"#, EventField::Sender),
    (r#"{"event_id":"$1","room_id":"!r","type":"t","content":{}}"#, EventField::Sender),
    (r#"{"event_id":"$1","room_id":"!r","sender":"@a:b","type":null,"content":{}}"#, EventField::Kind),
    (r#"{"event_id":"$1","room_id":"!r","sender":"@a:b","content":{}}"#, EventField::Kind),
    (r#"{"event_id":"$1","room_id":"!r","sender":"@a:b","type":"t","content":[]}"#, EventField::Content),
    (r#"{"event_id":"$1","room_id":"!r","sender":"@a:b","type":"t"}"#, EventField::Content),
    (r#"{"event_id":"$1","room_id":"!r","sender":"@a:b","type":"t","content":{},"state_key":null}"#, EventField::StateKey),
    (r#"{"event_id":"$1","room_id":"!r","sender":"@a:b","type":"t","content":{},"state_key":1}"#, EventField::StateKey),
    // Two at a time.
    (r#"{"event_id":"1","room_id":"r","sender":"@a:b","type":"t","content":{}}"#, EventField::EventId),
    (r#"{"event_id":"$1","room_id":"r","sender":"a","type":"t","content":{}}"#, EventField::RoomId),
    (r#"{"event_id":"$1","room_id":"!r","sender":"a","type":1,"content":{}}"#, EventField::Sender),
    (r#"{"event_id":"$1","room_id":"!r","sender":"@a:b","type":1,"content":1}"#, EventField::Kind),
    (r#"{"event_id":"$1","room_id":"!r","sender":"@a:b","type":"t","content":1,"state_key":1}"#, EventField::Content),
];

/// An event whose type and state key have so many bytes.
fn event_text(rt: &impl Abort, alloc: Global, kind: usize, state_key: usize) -> String {
    format!(in alloc;
        r#"{{"event_id":"$1","room_id":"!r","sender":"@a:b","type":"{:x>kind$}","content":{{}},"state_key":"{:x>state_key$}"}}"#,
        "", ""
    )
    .expect(rt, "an event's text")
}

#[test]
fn a_type_and_a_state_key_have_at_most_255_bytes(rt: HostRuntime) {
    for (kind, state_key, wanted) in [
        (255, 255, None),
        (256, 0, Some(EventField::Kind)),
        (0, 256, Some(EventField::StateKey)),
        (0, 0, None),
    ] {
        let text = event_text(&rt, rt.alloc(), kind, state_key);
        assert_eq!(rt;
            wrong_field(&rt, rt.alloc(), text.as_str()),
            wanted,
            "at {text}"
        );
    }
}

const MEMBER: &str =
    r#"{"content":{"membership":"join"},"event_id":"$1","origin_server_ts":1,"room_id":"!r:example.org","sender":"@a:example.org","state_key":"@b:example.org","type":"m.room.member","unsigned":{"age":1}}"#;

#[test]
fn what_is_read_off_an_event(rt: HostRuntime) {
    // The copy is looked at in place of what was read.
    let read = copy(&rt, rt.alloc(), &event(&rt, rt.alloc(), MEMBER));
    assert!(rt; has_the_texts(&read));
    assert!(rt; has_the_values(&read));
}

fn copy(rt: &impl Abort, alloc: Global, event: &Event) -> Event {
    event.copied(alloc).expect(rt, "a copy")
}

fn has_the_texts(event: &Event) -> bool {
    event.event_id().as_text() == "$1"
        && event.room_id().as_text() == "!r:example.org"
        && event.sender().as_text() == "@a:example.org"
        && event.kind() == "m.room.member"
        && event.state_key() == Some("@b:example.org")
}

fn has_the_values(event: &Event) -> bool {
    event.content().member("membership").is_some() && event.json().member("unsigned").is_some()
}

#[test]
fn memberships(rt: HostRuntime) {
    for (text, wanted) in [
        (
            r#"{"content":{"membership":"ban"},"event_id":"$1","room_id":"!r","sender":"@a:b","state_key":"","type":"m.room.member"}"#,
            Some(("", "ban")),
        ),
        (
            r#"{"content":{"membership":1},"event_id":"$1","room_id":"!r","sender":"@a:b","state_key":"x","type":"m.room.member"}"#,
            Some(("x", "leave")),
        ),
        (
            r#"{"content":{},"event_id":"$1","room_id":"!r","sender":"@a:b","state_key":"x","type":"m.room.member"}"#,
            Some(("x", "leave")),
        ),
        (
            r#"{"content":{"membership":"join"},"event_id":"$1","room_id":"!r","sender":"@a:b","type":"m.room.member"}"#,
            None,
        ),
        (
            r#"{"content":{"membership":"join"},"event_id":"$1","room_id":"!r","sender":"@a:b","state_key":"x","type":"m.room.name"}"#,
            None,
        ),
    ] {
        assert!(rt; has_membership(&rt, rt.alloc(), text, wanted), "at {text}");
    }
}

fn has_membership(
    rt: &impl Abort,
    alloc: Global,
    text: &str,
    wanted: Option<(&str, &str)>,
) -> bool {
    event(rt, alloc, text).membership() == wanted
}

#[test]
fn relations(rt: HostRuntime) {
    for (relates_to, thread, other) in [
        (
            r#"{"rel_type":"m.thread","event_id":"$3"}"#,
            Some("$3"),
            None,
        ),
        (r#"{"rel_type":"m.thread","event_id":"3"}"#, None, None),
        (
            r#"{"rel_type":"m.annotation","event_id":"$zz"}"#,
            None,
            Some("$zz"),
        ),
        (
            r#"{"rel_type":"m.annotation","event_id":"zz"}"#,
            None,
            Some("zz"),
        ),
        (r#"{"rel_type":"","event_id":""}"#, None, Some("")),
        (r#"{"rel_type":1,"event_id":"$3"}"#, None, None),
        (r#"{"event_id":"$3"}"#, None, None),
        (r#"{"rel_type":"m.thread"}"#, None, None),
        ("[]", None, None),
    ] {
        let is_read = is_read_as(&rt, rt.alloc(), relates_to, thread, other);
        assert!(rt; is_read, "at {relates_to}");
    }
}

/// Whether an event with this relation is read as one in that thread, or as one that names that
/// other event.
fn is_read_as(
    rt: &impl Abort,
    alloc: Global,
    relates_to: &str,
    thread: Option<&str>,
    other: Option<&str>,
) -> bool {
    let text = relating(rt, alloc, relates_to);
    is_related(&event(rt, alloc, text.as_str()), thread, other)
}

/// An event whose content relates to something so.
fn relating(rt: &impl Abort, alloc: Global, relates_to: &str) -> String {
    format!(in alloc;
        r#"{{"content":{{"m.relates_to":{relates_to}}},"event_id":"$1","room_id":"!r","sender":"@a:b","type":"t"}}"#
    ).expect(rt, "an event's text")
}

fn is_related(event: &Event, thread: Option<&str>, other: Option<&str>) -> bool {
    match event.relation() {
        Relation::Thread(id) => thread == Some(id) && other.is_none(),
        Relation::Other(id) => other == Some(id) && thread.is_none(),
        Relation::Nothing => thread.is_none() && other.is_none(),
    }
}
