//! One table of events that are judged for a user, in the room after them.
use crate::fixtures::{Told, event, room, user};
use mx_defaults::predefined;
use mx_event::Event;
use mx_glob::Scratch;
use mx_json::UserId;
use mx_judge::judge;
use mx_room::{Room, RoomView};
use mx_rule::{Ruleset, Verdict};
use std::alloc::Global;
use std::process::Abort;

/// A room by its events before the one that is judged, an owner of the predefined rules, and
/// whether the event notifies, is highlighted and sounds; none where it isn't judged.
struct Row {
    name: &'static str,
    before: &'static [Told],
    event: Told,
    owner: &'static str,
    wanted: Option<(bool, bool, Option<&'static str>)>,
}

#[test]
fn how_events_are_judged(rt: HostRuntime) {
    for row in &ROWS {
        check(&rt, rt.alloc(), row);
    }
}

fn check(rt: &impl Abort, alloc: Global, row: &Row) {
    let mut room = room(rt, alloc, row.before);
    let event = event(rt, alloc, row.event);
    check_event(rt, alloc, &mut room, &event, row);
}

fn check_event(rt: &impl Abort, alloc: Global, room: &mut Room, event: &Event, row: &Row) {
    let plan = room.prepare(alloc, event).expect(rt, "a plan");
    check_view(rt, alloc, &room.view(Some(&plan)), event, row);
}

fn check_view(rt: &impl Abort, alloc: Global, view: &RoomView, event: &Event, row: &Row) {
    let owner = user(rt, alloc, row.owner);
    let rules = rules(rt, alloc, &owner);
    check_verdict(rt, alloc, view, event, &owner, &rules, row);
}

/// The predefined rules of a user, and those of `@b` where the user isn't local.
fn rules(rt: &impl Abort, alloc: Global, owner: &UserId) -> Ruleset {
    if owner.localpart_on(SERVER).is_some() {
        predefined(alloc, owner, SERVER).expect(rt, "rules")
    } else {
        rules_of_b(rt, alloc, &user(rt, alloc, B))
    }
}

fn rules_of_b(rt: &impl Abort, alloc: Global, b: &UserId) -> Ruleset {
    if b.localpart_on(SERVER).is_none() {
        rt.panic("b is local")
    }
    predefined(alloc, b, SERVER).expect(rt, "rules")
}

fn check_verdict(
    rt: &impl Abort,
    alloc: Global,
    view: &RoomView,
    event: &Event,
    owner: &UserId,
    rules: &Ruleset,
    row: &Row,
) {
    let mut scratch = Scratch::new(alloc).expect(rt, "a scratch");
    let verdict = judge(alloc, event, owner, SERVER, rules, view, &mut scratch);
    assert_eq!(rt;
        said(&verdict.expect(rt, "an answer")),
        row.wanted,
        "{}",
        row.name
    );
}

fn said(verdict: &Option<Verdict>) -> Option<(bool, bool, Option<&str>)> {
    let verdict = verdict.as_ref()?;
    let sound = match &verdict.sound {
        Some(sound) => Some(sound.as_str()),
        None => None,
    };
    Some((verdict.notify, verdict.highlight, sound))
}

const SERVER: &str = "example.org";

const A: &str = "@a:example.org";

const B: &str = "@b:example.org";

const C: &str = "@c:example.org";

const REMOTE: &str = "@r:other.org";

const MEMBER: &str = "m.room.member";

const POWERS: &str = "m.room.power_levels";

const MESSAGE: &str = "m.room.message";

const JOIN: &str = r#"{"membership":"join"}"#;

const INVITE: &str = r#"{"membership":"invite"}"#;

const A_JOINS: Told = Told(A, MEMBER, Some(A), JOIN);

const B_JOINS: Told = Told(B, MEMBER, Some(B), JOIN);

const BOB_JOINS: Told = Told(
    B,
    MEMBER,
    Some(B),
    r#"{"displayname":"Bob","membership":"join"}"#,
);

const C_JOINS: Told = Told(C, MEMBER, Some(C), JOIN);

const B_LEAVES: Told = Told(B, MEMBER, Some(B), r#"{"membership":"leave"}"#);

const B_IS_INVITED: Told = Told(REMOTE, MEMBER, Some(B), INVITE);

const B_IS_BANNED: Told = Told(REMOTE, MEMBER, Some(B), r#"{"membership":"ban"}"#);

const REMOTE_JOINS: Told = Told(REMOTE, MEMBER, Some(REMOTE), JOIN);

const HI: Told = Told(A, MESSAGE, None, r#"{"body":"hi","msgtype":"m.text"}"#);

const HI_BOB: Told = Told(A, MESSAGE, None, r#"{"body":"hi Bob","msgtype":"m.text"}"#);

const AT_ROOM: Told = Told(
    A,
    MESSAGE,
    None,
    r#"{"body":"@room hi","msgtype":"m.text"}"#,
);

const AT_ROOM_WITH_MENTIONS: Told = Told(
    A,
    MESSAGE,
    None,
    r#"{"body":"@room hi","m.mentions":{},"msgtype":"m.text"}"#,
);

const A_HAS_50: Told = Told(A, POWERS, Some(""), r#"{"users":{"@a:example.org":50}}"#);

const A_HAS_49: Told = Told(A, POWERS, Some(""), r#"{"users":{"@a:example.org":49}}"#);

#[rattlefmt::skip]
static ROWS: [Row; 18] = [
    Row { name: "a message among two", before: &[A_JOINS, B_JOINS],
        event: HI, owner: B, wanted: Some((true, false, Some("default"))) },
    Row { name: "its sender", before: &[A_JOINS, B_JOINS], event: HI, owner: A, wanted: None },
    Row { name: "a message among three", before: &[A_JOINS, B_JOINS, C_JOINS],
        event: HI, owner: B, wanted: Some((true, false, None)) },
    Row { name: "who isn't in the room", before: &[A_JOINS, B_JOINS], event: HI, owner: C, wanted: None },
    Row { name: "who left", before: &[A_JOINS, B_JOINS, B_LEAVES], event: HI, owner: B, wanted: None },
    Row { name: "who is invited still", before: &[A_JOINS, B_IS_INVITED], event: HI, owner: B, wanted: None },
    Row { name: "a remote user", before: &[A_JOINS, REMOTE_JOINS], event: HI, owner: REMOTE, wanted: None },
    Row { name: "@room with power 50", before: &[A_JOINS, B_JOINS, A_HAS_50],
        event: AT_ROOM, owner: B, wanted: Some((true, true, None)) },
    Row { name: "@room with power 49", before: &[A_JOINS, B_JOINS, A_HAS_49],
        event: AT_ROOM, owner: B, wanted: Some((true, false, Some("default"))) },
    Row { name: "@room beside m.mentions", before: &[A_JOINS, B_JOINS, A_HAS_50],
        event: AT_ROOM_WITH_MENTIONS, owner: B, wanted: Some((true, false, Some("default"))) },
    Row { name: "the owner's display name", before: &[A_JOINS, BOB_JOINS],
        event: HI_BOB, owner: B, wanted: Some((true, true, Some("default"))) },
    Row { name: "an owner without a display name", before: &[A_JOINS, B_JOINS],
        event: HI_BOB, owner: B, wanted: Some((true, false, Some("default"))) },
    Row { name: "an invitation by a remote user", before: &[REMOTE_JOINS],
        event: B_IS_INVITED, owner: B, wanted: Some((true, false, Some("default"))) },
    Row { name: "another's invitation", before: &[A_JOINS, REMOTE_JOINS],
        event: B_IS_INVITED, owner: A, wanted: Some((false, false, None)) },
    Row { name: "a ban after an invitation", before: &[REMOTE_JOINS, B_IS_INVITED],
        event: B_IS_BANNED, owner: B, wanted: None },
    Row { name: "one's own join", before: &[A_JOINS], event: B_JOINS, owner: B, wanted: None },
    Row { name: "another's join", before: &[A_JOINS], event: B_JOINS, owner: A, wanted: Some((false, false, None)) },
    Row { name: "a state event", before: &[A_JOINS, B_JOINS],
        event: A_HAS_50, owner: B, wanted: Some((false, false, None)) },
];
