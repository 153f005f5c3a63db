//! One table of rooms: what their events say of a user.
use crate::fixtures::{Told, room};
use mx_room::RoomView;
use std::alloc::Global;
use std::process::Abort;

/// A room by its events, a user, and what the room says of that user: membership, display name,
/// power; and how many are joined.
struct Row {
    name: &'static str,
    events: &'static [Told],
    user: &'static str,
    wanted: (&'static str, Option<&'static str>, i64, u64),
}

#[test]
fn what_rooms_say_of_users(rt: HostRuntime) {
    for row in &ROWS {
        check(&rt, rt.alloc(), row);
    }
}

fn check(rt: &impl Abort, alloc: Global, row: &Row) {
    let room = room(rt, alloc, row.events);
    check_view(rt, &room.view(None), row);
}

fn check_view(rt: &impl Abort, view: &RoomView, row: &Row) {
    let said = (
        view.membership(row.user),
        view.name_of(row.user),
        view.power(row.user),
        view.joined(),
    );
    assert_eq!(rt; said, row.wanted, "{}", row.name);
}

const A: &str = "@a:b";

const MEMBER: &str = "m.room.member";

const POWERS: &str = "m.room.power_levels";

const CREATE: &str = "m.room.create";

const JOIN: &str = r#"{"membership":"join"}"#;

const ANN: &str = r#"{"displayname":"Ann","membership":"join"}"#;

#[rattlefmt::skip]
static ROWS: [Row; 26] = [
    Row { name: "an empty room", events: &[], user: A, wanted: ("leave", None, 0, 0) },
    Row { name: "a member without a membership",
        events: &[Told(A, MEMBER, Some(A), "{}")],
        user: A, wanted: ("leave", None, 0, 0) },
    Row { name: "a membership that is no text",
        events: &[Told(A, MEMBER, Some(A), r#"{"membership":1}"#)],
        user: A, wanted: ("leave", None, 0, 0) },
    Row { name: "joined with a name",
        events: &[Told(A, MEMBER, Some(A), ANN)],
        user: A, wanted: ("join", Some("Ann"), 0, 1) },
    Row { name: "another user is joined",
        events: &[Told("@c:b", MEMBER, Some("@c:b"), ANN)],
        user: A, wanted: ("leave", None, 0, 1) },
    Row { name: "a name that is no text",
        events: &[Told(A, MEMBER, Some(A), r#"{"displayname":7,"membership":"join"}"#)],
        user: A, wanted: ("join", None, 0, 1) },
    Row { name: "an empty name",
        events: &[Told(A, MEMBER, Some(A), r#"{"displayname":"","membership":"join"}"#)],
        user: A, wanted: ("join", Some(""), 0, 1) },
    Row { name: "a name that changes",
        events: &[Told(A, MEMBER, Some(A), ANN),
            Told(A, MEMBER, Some(A), r#"{"displayname":"Bea","membership":"join"}"#)],
        user: A, wanted: ("join", Some("Bea"), 0, 1) },
    Row { name: "a name that is taken away",
        events: &[Told(A, MEMBER, Some(A), ANN), Told(A, MEMBER, Some(A), JOIN)],
        user: A, wanted: ("join", None, 0, 1) },
    Row { name: "a member event that is no state",
        events: &[Told(A, MEMBER, None, ANN)],
        user: A, wanted: ("leave", None, 0, 0) },
    Row { name: "a state event that is no member event",
        events: &[Told(A, "m.room.topic", Some(A), ANN)],
        user: A, wanted: ("leave", None, 0, 0) },
    Row { name: "a state key that is no user id",
        events: &[Told(A, MEMBER, Some("somebody"), JOIN)],
        user: "somebody", wanted: ("join", None, 0, 1) },
    Row { name: "two joined, one leaves",
        events: &[Told(A, MEMBER, Some(A), JOIN), Told("@c:b", MEMBER, Some("@c:b"), JOIN),
            Told(A, MEMBER, Some(A), r#"{"membership":"leave"}"#)],
        user: A, wanted: ("leave", None, 0, 1) },
    Row { name: "an invitation isn't a join",
        events: &[Told("@c:b", MEMBER, Some(A), r#"{"membership":"invite"}"#)],
        user: A, wanted: ("invite", None, 0, 0) },
    Row { name: "a ban after an invitation",
        events: &[Told("@c:b", MEMBER, Some(A), r#"{"membership":"invite"}"#),
            Told("@c:b", MEMBER, Some(A), r#"{"membership":"ban"}"#)],
        user: A, wanted: ("ban", None, 0, 0) },
    Row { name: "a power of the user's own",
        events: &[Told(A, POWERS, Some(""), r#"{"users":{"@a:b":9},"users_default":7}"#)],
        user: A, wanted: ("leave", None, 9, 0) },
    Row { name: "a power that is no whole number",
        events: &[Told(A, POWERS, Some(""), r#"{"users":{"@a:b":"9"},"users_default":7}"#)],
        user: A, wanted: ("leave", None, 7, 0) },
    Row { name: "users that are a list",
        events: &[Told(A, POWERS, Some(""), r#"{"users":[9],"users_default":7}"#)],
        user: A, wanted: ("leave", None, 7, 0) },
    Row { name: "a default power that is no whole number",
        events: &[Told(A, POWERS, Some(""), r#"{"users_default":"7"}"#)],
        user: A, wanted: ("leave", None, 0, 0) },
    Row { name: "power levels with another state key",
        events: &[Told(A, POWERS, Some("x"), r#"{"users_default":7}"#)],
        user: A, wanted: ("leave", None, 0, 0) },
    Row { name: "power levels that change",
        events: &[Told(A, POWERS, Some(""), r#"{"users_default":7}"#), Told(A, POWERS, Some(""), "{}")],
        user: A, wanted: ("leave", None, 0, 0) },
    Row { name: "a creator by the content",
        events: &[Told("@c:b", CREATE, Some(""), r#"{"creator":"@a:b"}"#)],
        user: A, wanted: ("leave", None, 100, 0) },
    Row { name: "who sends another's creation",
        events: &[Told(A, CREATE, Some(""), r#"{"creator":"@c:b"}"#)],
        user: A, wanted: ("leave", None, 0, 0) },
    Row { name: "a creator by the sender",
        events: &[Told(A, CREATE, Some(""), "{}")],
        user: A, wanted: ("leave", None, 100, 0) },
    Row { name: "a creator that is no text",
        events: &[Told(A, CREATE, Some(""), r#"{"creator":7}"#)],
        user: A, wanted: ("leave", None, 100, 0) },
    Row { name: "a creator beside power levels",
        events: &[Told(A, CREATE, Some(""), "{}"), Told(A, POWERS, Some(""), "{}")],
        user: A, wanted: ("leave", None, 0, 0) },
];
