//! Whom events notify, by the predefined rules and the rooms after them:
//! tables of rows, each told through `serve`.

use super::fixtures::{Script, is_served};
use std::alloc::Global;
use std::process::Abort;

/// An event: its room, its sender, its type, its state key if it is a state event, its content.
#[derive(Clone, Copy)]
pub(super) struct Told(
    pub(super) &'static str,
    pub(super) &'static str,
    pub(super) &'static str,
    pub(super) Option<&'static str>,
    pub(super) &'static str,
);

/// Events, all of which are accepted, and what is replied to questions after them:
/// the room, the user, the reply.
struct Row {
    name: &'static str,
    events: &'static [Told],
    replies: &'static [(&'static str, &'static str, &'static str)],
}

#[test]
fn joined_users_are_notified(rt: HostRuntime) {
    assert_eq!(rt; wrong_row(&rt, rt.alloc(), &JOINED), "");
}

#[test]
fn who_is_not_joined_is_not_notified(rt: HostRuntime) {
    assert_eq!(rt; wrong_row(&rt, rt.alloc(), &NOT_JOINED), "");
}

#[test]
fn who_is_invited_is_notified(rt: HostRuntime) {
    assert_eq!(rt; wrong_row(&rt, rt.alloc(), &INVITED), "");
}

#[test]
fn rooms_are_told_apart(rt: HostRuntime) {
    assert_eq!(rt; wrong_row(&rt, rt.alloc(), &SEVERAL_ROOMS), "");
}

#[test]
fn what_is_said_decides(rt: HostRuntime) {
    assert_eq!(rt; wrong_row(&rt, rt.alloc(), &SAID), "");
}

/// The name of the first row whose replies are others; empty where there is none.
fn wrong_row(rt: &impl Abort, alloc: Global, rows: &[Row]) -> &'static str {
    for row in rows {
        if !is_answered(rt, alloc, row) {
            return row.name;
        }
    }
    ""
}

fn is_answered(rt: &impl Abort, alloc: Global, row: &Row) -> bool {
    let script = script_of_row(rt, alloc, row);
    is_served(rt, alloc, &script, 0)
}

fn script_of_row(rt: &impl Abort, alloc: Global, row: &Row) -> Script {
    let mut script = Script::new(alloc);
    for told in row.events {
        say_event(rt, alloc, &mut script, *told);
    }
    for (room, user, reply) in row.replies {
        say_question(rt, alloc, &mut script, room, user, reply);
    }
    script
}

/// Says this event with the number of its line as its id, which it has as its position too.
fn say_event(rt: &impl Abort, alloc: Global, script: &mut Script, told: Told) {
    let number = script.next_line();
    let line = match told.3 {
        Some(key) => state_line(rt, alloc, told, key, number),
        None => message_line(rt, alloc, told, number),
    };
    say_accepted(rt, alloc, script, line.as_str(), number);
}

pub(super) fn say_accepted(
    rt: &impl Abort,
    alloc: Global,
    script: &mut Script,
    line: &str,
    position: usize,
) {
    let reply = format!(in alloc; r#"= {{"ok":{position}}}"#).expect(rt, line);
    script.say(rt, line.as_bytes(), reply.as_str());
}

pub(super) fn state_line(
    rt: &impl Abort,
    alloc: Global,
    told: Told,
    key: &str,
    number: usize,
) -> String {
    let Told(room, sender, kind, _, content) = told;
    format!(in alloc;
        r#"{{"cmd":"event","event":{{"content":{content},"event_id":"${number}","room_id":"{room}","sender":"{sender}","state_key":"{key}","type":"{kind}"}}}}"#
    ).expect(rt, "a state event's line")
}

pub(super) fn message_line(rt: &impl Abort, alloc: Global, told: Told, number: usize) -> String {
    let Told(room, sender, kind, _, content) = told;
    format!(in alloc;
        r#"{{"cmd":"event","event":{{"content":{content},"event_id":"${number}","room_id":"{room}","sender":"{sender}","type":"{kind}"}}}}"#
    ).expect(rt, "an event's line")
}

fn say_question(
    rt: &impl Abort,
    alloc: Global,
    script: &mut Script,
    room: &str,
    user: &str,
    reply: &str,
) {
    let line = format!(in alloc; r#"{{"cmd":"counts","room_id":"{room}","user":"{user}"}}"#).expect(
        rt, user,
    );
    script.say(rt, line.as_bytes(), reply);
}

const NOTHING: &str = r#"= {"highlight_count":0,"notification_count":0,"threads":{}}"#;

const ONE: &str = r#"= {"highlight_count":0,"notification_count":1,"threads":{}}"#;

const ONE_HIGHLIGHTED: &str = r#"= {"highlight_count":1,"notification_count":1,"threads":{}}"#;

const TWO: &str = r#"= {"highlight_count":0,"notification_count":2,"threads":{}}"#;

const NOT_LOCAL: &str = r#"= {"error":"NotLocal"}"#;

const R: &str = "!r:example.org";

const S: &str = "!s:example.org";

const A: &str = "@a:example.org";

const B: &str = "@b:example.org";

const C: &str = "@c:example.org";

const REMOTE: &str = "@r:other.org";

const MEMBER: &str = "m.room.member";

const POWERS: &str = "m.room.power_levels";

const MESSAGE: &str = "m.room.message";

const JOIN: &str = r#"{"membership":"join"}"#;

const INVITE: &str = r#"{"membership":"invite"}"#;

const LEAVE: &str = r#"{"membership":"leave"}"#;

const A_50: &str = r#"{"users":{"@a:example.org":50}}"#;

const HI: &str = r#"{"body":"hi","msgtype":"m.text"}"#;

const AT_ROOM: &str = r#"{"body":"@room hi","msgtype":"m.text"}"#;

const A_JOINS: Told = Told(R, A, MEMBER, Some(A), JOIN);

const B_JOINS: Told = Told(R, B, MEMBER, Some(B), JOIN);

const C_JOINS: Told = Told(R, C, MEMBER, Some(C), JOIN);

const REMOTE_JOINS: Told = Told(R, REMOTE, MEMBER, Some(REMOTE), JOIN);

const REMOTE_INVITES_B: Told = Told(R, REMOTE, MEMBER, Some(B), INVITE);

const A_WRITES: Told = Told(R, A, MESSAGE, None, HI);

const A_CALLS_ALL: Told = Told(R, A, MESSAGE, None, AT_ROOM);

#[rattlefmt::skip]
static JOINED: [Row; 6] = [
    Row { name: "two join, one message",
        events: &[A_JOINS, B_JOINS, A_WRITES],
        replies: &[(R, B, ONE), (R, A, NOTHING)] },
    Row { name: "a third joins",
        events: &[A_JOINS, B_JOINS, A_WRITES, C_JOINS, A_WRITES],
        replies: &[(R, B, TWO), (R, C, ONE), (R, A, NOTHING)] },
    Row { name: "@room with power 50",
        events: &[A_JOINS, B_JOINS, Told(R, A, POWERS, Some(""), A_50), A_CALLS_ALL],
        replies: &[(R, B, ONE_HIGHLIGHTED)] },
    Row { name: "@room with power 49",
        events: &[A_JOINS, B_JOINS, Told(R, A, POWERS, Some(""), r#"{"users":{"@a:example.org":49}}"#), A_CALLS_ALL],
        replies: &[(R, B, ONE)] },
    Row { name: "@room beside m.mentions",
        events: &[A_JOINS, B_JOINS, Told(R, A, POWERS, Some(""), A_50),
            Told(R, A, MESSAGE, None, r#"{"body":"@room hi","m.mentions":{},"msgtype":"m.text"}"#)],
        replies: &[(R, B, ONE)] },
    Row { name: "a power that the event itself gives",
        events: &[A_JOINS, B_JOINS, Told(R, A, POWERS, Some(""), r#"{"body":"@room","users":{"@a:example.org":50}}"#)],
        replies: &[(R, B, ONE_HIGHLIGHTED)] },
];

#[rattlefmt::skip]
static NOT_JOINED: [Row; 5] = [
    Row { name: "who isn't in the room", events: &[A_JOINS, A_WRITES], replies: &[(R, B, NOTHING)] },
    Row { name: "who joins after the message", events: &[A_JOINS, A_WRITES, B_JOINS], replies: &[(R, B, NOTHING)] },
    Row { name: "who was away",
        events: &[A_JOINS, B_JOINS, Told(R, B, MEMBER, Some(B), LEAVE), A_WRITES, B_JOINS],
        replies: &[(R, B, NOTHING)] },
    Row { name: "a membership that is no text",
        events: &[A_JOINS, Told(R, B, MEMBER, Some(B), r#"{"membership":1}"#), A_WRITES],
        replies: &[(R, B, NOTHING)] },
    Row { name: "a message by a remote user, and a remote user",
        events: &[A_JOINS, REMOTE_JOINS, A_WRITES, Told(R, REMOTE, MESSAGE, None, HI)],
        replies: &[(R, REMOTE, NOT_LOCAL), (R, A, ONE)] },
];

#[rattlefmt::skip]
static INVITED: [Row; 4] = [
    Row { name: "an invitation", events: &[A_JOINS, Told(R, A, MEMBER, Some(B), INVITE)],
        replies: &[(R, B, ONE), (R, A, NOTHING)] },
    Row { name: "a message to who is invited still", events: &[A_JOINS, Told(R, A, MEMBER, Some(B), INVITE), A_WRITES],
        replies: &[(R, B, ONE)] },
    Row { name: "an invitation by a remote user", events: &[REMOTE_JOINS, REMOTE_INVITES_B], replies: &[(R, B, ONE)] },
    Row { name: "a ban after an invitation", events: &[REMOTE_JOINS, REMOTE_INVITES_B,
        Told(R, REMOTE, MEMBER, Some(B), r#"{"membership":"ban"}"#), Told(R, REMOTE, MESSAGE, None, HI)],
        replies: &[(R, B, NOTHING)] },
];

#[rattlefmt::skip]
static SEVERAL_ROOMS: [Row; 5] = [
    Row { name: "state events in another room", events: &[A_JOINS, B_JOINS, Told(S, B, MEMBER, Some(B), LEAVE),
        Told(S, A, POWERS, Some(""), A_50), A_CALLS_ALL], replies: &[(R, B, ONE), (S, B, NOTHING)] },
    Row { name: "a member of another room", events: &[A_JOINS, Told(S, B, MEMBER, Some(B), JOIN), A_WRITES],
        replies: &[(R, B, NOTHING), (S, B, NOTHING)] },
    Row { name: "a member of two rooms", events: &[A_JOINS, B_JOINS, Told(S, B, MEMBER, Some(B), JOIN), A_WRITES,
        Told(S, A, MESSAGE, None, HI), Told(S, A, MESSAGE, None, HI)],
        replies: &[(R, B, ONE), (S, B, TWO), (S, A, NOTHING)] },
    Row { name: "a state event without local members", events: &[Told(R, REMOTE, "m.room.create", Some(""), "{}")],
        replies: &[(R, A, NOTHING), (R, B, NOTHING)] },
    Row { name: "what such an event sets",
        events: &[Told(R, REMOTE, "m.room.create", Some(""), "{}"), B_JOINS, Told(R, REMOTE, MESSAGE, None, AT_ROOM)],
        replies: &[(R, B, ONE_HIGHLIGHTED)] },
];

#[rattlefmt::skip]
static SAID: [Row; 7] = [
    Row { name: "a display name",
        events: &[A_JOINS, Told(R, B, MEMBER, Some(B), r#"{"displayname":"Bob","membership":"join"}"#), C_JOINS,
            Told(R, A, MESSAGE, None, r#"{"body":"hi bob","msgtype":"m.text"}"#)],
        replies: &[(R, B, ONE_HIGHLIGHTED), (R, C, ONE)] },
    Row { name: "a localpart",
        events: &[A_JOINS, B_JOINS, C_JOINS, Told(R, A, MESSAGE, None, r#"{"body":"hi, B!","msgtype":"m.text"}"#)],
        replies: &[(R, B, ONE_HIGHLIGHTED), (R, C, ONE)] },
    Row { name: "a mention",
        events: &[A_JOINS, B_JOINS, C_JOINS, Told(R, A, MESSAGE, None,
            r#"{"body":"hi","m.mentions":{"user_ids":["@b:example.org"]},"msgtype":"m.text"}"#)],
        replies: &[(R, B, ONE_HIGHLIGHTED), (R, C, ONE)] },
    Row { name: "a notice",
        events: &[A_JOINS, B_JOINS, Told(R, A, MESSAGE, None, r#"{"body":"hi","msgtype":"m.notice"}"#)],
        replies: &[(R, B, NOTHING)] },
    Row { name: "an encrypted event",
        events: &[A_JOINS, B_JOINS, Told(R, A, "m.room.encrypted", None, "{}")],
        replies: &[(R, B, ONE)] },
    Row { name: "an event of which no rule speaks",
        events: &[A_JOINS, B_JOINS, Told(R, A, "m.room.topic", Some(""), r#"{"topic":"hi"}"#)],
        replies: &[(R, B, NOTHING)] },
    Row { name: "a tombstone",
        events: &[A_JOINS, B_JOINS, Told(R, A, "m.room.tombstone", Some(""), "{}")],
        replies: &[(R, B, ONE_HIGHLIGHTED)] },
];
