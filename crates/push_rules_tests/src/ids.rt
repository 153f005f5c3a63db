//! The ids of users, rooms and events.
use mx_json::{EventId, IdError, JsonText, RoomId, UserId, is_event_id, is_room_id, is_user_id};
use std::alloc::Global;
use std::collections::HashMap;
use std::process::Abort;

#[test]
fn ids(rt: HostRuntime) {
    for (text, wanted) in [
        ("", [false, false, false]),
        ("@", [false, false, false]),
        ("!", [false, false, false]),
        ("$", [false, false, false]),
        ("@a", [false, false, false]),
        ("@:", [true, false, false]),
        ("!r", [false, true, false]),
        ("$1", [false, false, true]),
        ("@a:example.org", [true, false, false]),
        ("!r:example.org", [false, true, false]),
        ("$1:example.org", [false, false, true]),
        ("a:example.org", [false, false, false]),
    ] {
        assert_eq!(rt; kinds_of(&rt, rt.alloc(), text), wanted, "at {text}");
    }
}

#[test]
fn an_id_has_at_most_255_bytes(rt: HostRuntime) {
    for (sigil, others, wanted) in [
        ("@a:", 252, [true, false, false]),
        ("@a:", 253, [false, false, false]),
        ("!", 254, [false, true, false]),
        ("!", 255, [false, false, false]),
        ("$", 254, [false, false, true]),
        ("$", 255, [false, false, false]),
    ] {
        let text = long_id(&rt, rt.alloc(), sigil, others);
        assert_eq!(rt;
            kinds_of(&rt, rt.alloc(), text.as_str()),
            wanted,
            "at {sigil}"
        );
    }
}

/// The sigil, and then so many `x`.
fn long_id(rt: &impl Abort, alloc: Global, sigil: &str, others: usize) -> String {
    format!(in alloc; "{sigil}{:x>others$}", "").expect(rt, "an id's text")
}

/// Whether the text is a user id, a room id, an event id.
fn kinds_of(rt: &impl Abort, alloc: Global, text: &str) -> [bool; 3] {
    let kinds = [
        is_user(rt, alloc, text),
        is_room(rt, alloc, text),
        is_event(rt, alloc, text),
    ];
    assert_eq!(rt;
        [is_user_id(text), is_room_id(text), is_event_id(text)],
        kinds
    );
    kinds
}

/// Whether the text is read as a user id, of which it is then the text.
fn is_user(rt: &impl Abort, alloc: Global, text: &str) -> bool {
    match UserId::read(alloc, text) {
        Ok(id) => id.copied(alloc).expect(rt, "a copy").as_text() == text,
        Err(error) => is_bad(rt, error),
    }
}

fn is_room(rt: &impl Abort, alloc: Global, text: &str) -> bool {
    match RoomId::read(alloc, text) {
        Ok(id) => id.copied(alloc).expect(rt, "a copy").as_text() == text,
        Err(error) => is_bad(rt, error),
    }
}

fn is_event(rt: &impl Abort, alloc: Global, text: &str) -> bool {
    match EventId::read(alloc, text) {
        Ok(id) => id.copied(alloc).expect(rt, "a copy").as_text() == text,
        Err(error) => is_bad(rt, error),
    }
}

fn is_bad(rt: &impl Abort, error: IdError) -> bool {
    assert_eq!(rt; error, IdError::BadId);
    false
}

#[test]
fn localparts(rt: HostRuntime) {
    for (text, wanted) in [
        ("@a:example.org", Some("a")),
        ("@az09._=-/+:example.org", Some("az09._=-/+")),
        ("@:example.org", None),
        ("@A:example.org", None),
        ("@a b:example.org", None),
        ("@a:b:example.org", None),
        ("@a:example.org:8448", None),
        ("@a:other.org", None),
        ("@a:sub.example.org", None),
        ("@:", None),
    ] {
        assert!(rt; has_localpart(&rt, rt.alloc(), text, wanted), "at {text}");
    }
}

fn has_localpart(rt: &impl Abort, alloc: Global, text: &str, wanted: Option<&str>) -> bool {
    let user = UserId::read(alloc, text).expect(rt, text);
    user.localpart_on("example.org") == wanted
}

// Equal texts alone are equal and have one hash: they are one key of a map.
#[test]
fn ids_are_keys(rt: HostRuntime) {
    for (text, wanted) in [("$1", Some(1)), ("$2", None)] {
        assert_eq!(rt; found_under(&rt, rt.alloc(), text), wanted, "at {text}");
    }
}

/// What a map with the one key `$1` has under this one.
fn found_under(rt: &impl Abort, alloc: Global, text: &str) -> Option<u64> {
    let mut places = HashMap::new(alloc);
    let inserted: Result<_, _> = places.insert(event_id(rt, alloc, "$1"), 1);
    inserted.expect(rt, "a map");
    places.get(&event_id(rt, alloc, text)).copied()
}

fn event_id(rt: &impl Abort, alloc: Global, text: &str) -> EventId {
    EventId::read(alloc, text).expect(rt, text)
}

#[test]
fn ids_are_equal_where_their_texts_are(rt: HostRuntime) {
    for (left, right, wanted) in [("a", "a", true), ("a", "b", false)] {
        assert_eq!(rt; are_equal(&rt, rt.alloc(), left, right), [wanted; 3]);
    }
}

fn are_equal(rt: &impl Abort, alloc: Global, left: &str, right: &str) -> [bool; 3] {
    [
        user_id(rt, alloc, left) == user_id(rt, alloc, right),
        room_id(rt, alloc, left) == room_id(rt, alloc, right),
        text(rt, alloc, left) == text(rt, alloc, right),
    ]
}

fn user_id(rt: &impl Abort, alloc: Global, name: &str) -> UserId {
    let id = format!(in alloc; "@{name}:b").expect(rt, name);
    UserId::read(alloc, id.as_str()).expect(rt, name)
}

fn room_id(rt: &impl Abort, alloc: Global, name: &str) -> RoomId {
    let id = format!(in alloc; "!{name}").expect(rt, name);
    RoomId::read(alloc, id.as_str()).expect(rt, name)
}

fn text(rt: &impl Abort, alloc: Global, text: &str) -> JsonText {
    JsonText::read(alloc, text).expect(rt, text)
}
