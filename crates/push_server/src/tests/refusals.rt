//! Lines that are refused, each beside the earlier refusals that could hide it,
//! and lines at each bound.

use super::fixtures::{Script, is_served};
use std::alloc::Global;
use std::process::Abort;

/// No JSON, though a number isn't whole or a field is wrong.
static BAD_LINES: [&str; 6] = [
    "",
    "nul",
    "1e400",
    "[1}",
    r#"{"n":1.5"#,
    r#"{"cmd":"event"} x"#,
];

/// A number that isn't whole, in lines that would be refused, or answered, without it.
#[rattlefmt::skip]
static NOT_WHOLE: [&str; 8] = [
    "[1.5]",
    r#"{"cmd":"stat","n":1e2}"#,
    r#"{"cmd":"event","event":{"n":1.0}}"#,
    r#"{"cmd":"event","event":{"event_id":"$new","room_id":"!r","sender":"@a:b","type":"t","content":{"n":1.5}}}"#,
    r#"{"cmd":"event","event":{"event_id":"$new","room_id":"!r","sender":"@a:b","type":"t","content":{"n":9007199254740992}}}"#,
    r#"{"cmd":"event","event":{"event_id":"$new","room_id":"!r","sender":"@a:b","type":"t","content":{"n":-9007199254740992}}}"#,
    r#"{"cmd":"event","event":{"event_id":"$known","room_id":"!r","sender":"@a:b","type":"t","content":{"n":-0}}}"#,
    r#"{"cmd":"counts","n":0.5,"room_id":"!r","user":"@z:other.org"}"#,
];

/// No word of a command.
static NO_COMMAND: [&str; 7] = [
    "[1]",
    "null",
    "{}",
    r#"{"cmd":1,"user":1}"#,
    r#"{"cmd":"events","event":[]}"#,
    r#"{"cmd":"Stat"}"#,
    r#"{"cmd":"stat","cmd":1}"#,
];

/// The first wrong field, where each later one is wrong too,
/// and the event is known or the user isn't local.
#[rattlefmt::skip]
static WRONG_FIELDS: [(&str, &str); 13] = [
    (r#"{"cmd":"event"}"#, "event.event_id"),
    (r#"{"cmd":"event","event":[]}"#, "event.event_id"),
    (r#"{"cmd":"event","event":{"event_id":"known","room_id":"r","sender":"a","type":1,"content":1}}"#, "event.event_id"),
    (r#"{"cmd":"event","event":{"event_id":"$known","room_id":"r","sender":"a","type":1,"content":1}}"#, "event.room_id"),
    (r#"{"cmd":"event","event":{"event_id":"$known","room_id":"!r","sender":"a","type":1,"content":1}}"#, "event.sender"),
    (r#"{"cmd":"event","event":{"event_id":"$known","room_id":"!r","sender":"@a:b","type":1,"content":1}}"#, "event.type"),
    (r#"{"cmd":"event","event":{"event_id":"$known","room_id":"!r","sender":"@a:b","type":"t","content":[],"state_key":1}}"#,
        "event.content"),
    (r#"{"cmd":"event","event":{"event_id":"$known","room_id":"!r","sender":"@a:b","type":"t","content":{},"state_key":null}}"#,
        "event.state_key"),
    (r#"{"cmd":"counts"}"#, "user"),
    (r#"{"cmd":"counts","room_id":"r","threads":1,"user":"z:other.org"}"#, "user"),
    (r#"{"cmd":"counts","room_id":"r","threads":1,"user":"@z:other.org"}"#, "room_id"),
    (r#"{"cmd":"counts","room_id":"!r","threads":1,"user":"@z:other.org"}"#, "threads"),
    (r#"{"cmd":"counts","room_id":"!r","threads":null,"user":"@b:example.org"}"#, "threads"),
];

/// Commands that aren't built, whatever else they say.
static NOT_BUILT: [&str; 6] = [
    r#"{"cmd":"pusher"}"#,
    r#"{"cmd":"pushers"}"#,
    r#"{"cmd":"turn","units":0}"#,
    r#"{"cmd":"stat"}"#,
    r#"{"cmd":"checkpoint"}"#,
    r#"{"cmd":"event","cmd":"stat"}"#,
];

/// Questions of users who aren't local.
static NOT_LOCAL: [&str; 7] = [
    r#"{"cmd":"counts","room_id":"!r","user":"@z:other.org"}"#,
    r#"{"cmd":"counts","room_id":"!r","threads":false,"user":"@z:other.org"}"#,
    r#"{"cmd":"counts","room_id":"!r","user":"@:example.org"}"#,
    r#"{"cmd":"counts","room_id":"!r","user":"@B:example.org"}"#,
    r#"{"cmd":"counts","room_id":"!r","user":"@b:example.orgs"}"#,
    r#"{"cmd":"counts","room_id":"!r","user":"@b:an.example.org"}"#,
    r#"{"cmd":"counts","room_id":"!r","user":"@example.org:b"}"#,
];

/// An event that is known, though nothing else of it is the same.
const KNOWN: &str =
    r#"{"cmd":"event","event":{"event_id":"$known","room_id":"!s","sender":"@c:d","type":"u","content":{"x":1}}}"#;

/// A line of each refusal, which is too long with enough blanks.
static HIDDEN: [&str; 6] = [
    "{",
    "[1.5]",
    "[1]",
    r#"{"cmd":"stat"}"#,
    r#"{"cmd":"counts","room_id":"!r","user":"@z:other.org"}"#,
    KNOWN,
];

const B_JOINS: &str =
    r#"{"cmd":"event","event":{"content":{"membership":"join"},"event_id":"$b","room_id":"!r:example.org","sender":"@b:example.org","state_key":"@b:example.org","type":"m.room.member"}}"#;

/// An event that is known afterwards, and notifies who joined.
const FIRST: &str =
    r#"{"cmd":"event","event":{"content":{},"event_id":"$known","room_id":"!r:example.org","sender":"@a:example.org","type":"m.room.message"}}"#;

/// Each refused line, between two events and what shows that nothing else changed anything.
fn refused_lines(rt: &impl Abort, alloc: Global) -> Script {
    let mut script = Script::new(alloc);
    script.say(rt, B_JOINS.as_bytes(), r#"= {"ok":1}"#);
    script.say(rt, FIRST.as_bytes(), r#"= {"ok":2}"#);
    for line in HIDDEN {
        script.say_padded(rt, alloc, line, 131_073, r#"= {"error":"LineTooLong"}"#);
    }
    script.say_each(rt, &BAD_LINES, r#"= {"error":"BadLine"}"#);
    script.say(rt, b"{\"cmd\":\"\xff\"}", r#"= {"error":"BadLine"}"#);
    script.say_each(rt, &NOT_WHOLE, r#"= {"error":"NotWhole"}"#);
    script.say_each(rt, &NO_COMMAND, r#"= {"error":"BadField","field":"cmd"}"#);
    for (line, field) in WRONG_FIELDS {
        say_wrong_field(rt, alloc, &mut script, line, field);
    }
    script.say_each(rt, &NOT_BUILT, r#"= {"error":"NotBuilt"}"#);
    script.say_each(rt, &NOT_LOCAL, r#"= {"error":"NotLocal"}"#);
    script.say(
        rt,
        KNOWN.as_bytes(),
        r#"= {"error":"KnownEvent","position":2}"#,
    );
    script.say(
        rt,
        br#"{"cmd":"counts","room_id":"!r:example.org","threads":false,"user":"@b:example.org"}"#,
        r#"= {"highlight_count":0,"notification_count":1}"#,
    );
    script
}

fn say_wrong_field(rt: &impl Abort, alloc: Global, script: &mut Script, line: &str, field: &str) {
    let reply = format!(in alloc; r#"= {{"error":"BadField","field":"{field}"}}"#).expect(
        rt, field,
    );
    script.say(rt, line.as_bytes(), reply.as_str());
}

#[test]
fn the_first_refusal_that_applies(rt: HostRuntime) {
    assert!(rt; refuses_each(&rt, rt.alloc()));
}

fn refuses_each(rt: &impl Abort, alloc: Global) -> bool {
    let script = refused_lines(rt, alloc);
    is_served(rt, alloc, &script, 0)
}

/// A line, and what of it is as large as is said.
#[derive(Clone, Copy)]
enum Line {
    /// A message whose content is nested so deep that the line is nested three levels deeper.
    Nested(usize),
    /// An event whose id has so many bytes after `$`.
    Id(usize),
    /// An event whose type has so many bytes.
    Kind(usize),
    /// A message with blanks behind it to so many bytes.
    Long(usize),
    /// This line.
    Is(&'static str),
}

/// The text of a line.
fn text_of(rt: &impl Abort, alloc: Global, line: Line) -> String {
    match line {
        Line::Nested(lists) => nested(rt, alloc, lists),
        Line::Id(length) => long_id(rt, alloc, length),
        Line::Kind(length) => long_kind(rt, alloc, length),
        Line::Long(length) => long(rt, alloc, length),
        Line::Is(text) => String::from_str(alloc, text).expect(rt, text),
    }
}

fn nested(rt: &impl Abort, alloc: Global, lists: usize) -> String {
    format!(in alloc;
        r#"{{"cmd":"event","event":{{"content":{{"x":{:[>lists$}{:]>lists$}}},"event_id":"${lists}","room_id":"!r:example.org","sender":"@a:example.org","type":"m.room.message"}}}}"#,
        "", ""
    )
    .expect(rt, "lists")
}

fn long_id(rt: &impl Abort, alloc: Global, length: usize) -> String {
    format!(in alloc;
        r#"{{"cmd":"event","event":{{"content":{{}},"event_id":"${:i>length$}","room_id":"!r:example.org","sender":"@a:example.org","type":"m.room.message"}}}}"#,
        ""
    )
    .expect(rt, "an id")
}

fn long_kind(rt: &impl Abort, alloc: Global, length: usize) -> String {
    format!(in alloc;
        r#"{{"cmd":"event","event":{{"content":{{}},"event_id":"$t","room_id":"!r:example.org","sender":"@a:","type":"{:t>length$}"}}}}"#,
        ""
    )
    .expect(rt, "a type")
}

fn long(rt: &impl Abort, alloc: Global, length: usize) -> String {
    let message =
        r#"{"cmd":"event","event":{"content":{},"event_id":"$long","room_id":"!r:example.org","sender":"@a:example.org","type":"m.room.message"}}"#;
    format!(in alloc; "{message:length$}").expect(rt, message)
}

/// Lines at the bounds of what is accepted, the refused ones after them, and what was accepted.
#[rattlefmt::skip]
static AT_BOUNDS: [(Line, &str); 15] = [
    (Line::Is(B_JOINS), r#"= {"ok":1}"#),
    (Line::Nested(97), r#"= {"ok":2}"#),
    (Line::Is(r#"{"cmd":"event","event":{"content":{"n":9007199254740991},"event_id":"$n1","room_id":"!r:example.org","sender":"@a:example.org","type":"m.room.message"}}"#),
        r#"= {"ok":3}"#),
    (Line::Is(r#"{"cmd":"event","event":{"content":{"n":-9007199254740991},"event_id":"$n2","room_id":"!r:example.org","sender":"@a:example.org","type":"m.room.message"}}"#),
        r#"= {"ok":4}"#),
    (Line::Id(254), r#"= {"ok":5}"#),
    (Line::Kind(255), r#"= {"ok":6}"#),
    // As a server hands an event out.
    (Line::Is(r#"{"cmd":"event","event":{"content":{"body":"hi","m.mentions":{},"msgtype":"m.text"},"event_id":"$143273582443PhrSn8Yp0wVcDkWuBtGXbA3mJqLzTHe","origin_server_ts":1432735824653,"room_id":"!r:example.org","sender":"@a:example.org","type":"m.room.message","unsigned":{"age":1234}}}"#),
        r#"= {"ok":7}"#),
    // Two keys of one name: the last counts.
    (Line::Is(r#"{"cmd":"event","event":{"content":{},"event_id":"$twice","event_id":"$last","room_id":"!r:example.org","sender":"@a:example.org","type":"m.room.message"}}"#),
        r#"= {"ok":8}"#),
    (Line::Nested(98), r#"= {"error":"BadLine"}"#),
    (Line::Id(255), r#"= {"error":"BadField","field":"event.event_id"}"#),
    (Line::Id(0), r#"= {"error":"BadField","field":"event.event_id"}"#),
    (Line::Kind(256), r#"= {"error":"BadField","field":"event.type"}"#),
    (Line::Is(r#"{"cmd":"counts","room_id":"!r:example.org","user":"@b:example.org"}"#),
        r#"= {"highlight_count":0,"notification_count":6,"threads":{}}"#),
    (Line::Long(131_073), r#"= {"error":"LineTooLong"}"#),
    (Line::Long(131_072), r#"= {"ok":9}"#),
];

fn lines_at_bounds(rt: &impl Abort, alloc: Global) -> Script {
    let mut script = Script::new(alloc);
    for (line, reply) in AT_BOUNDS {
        say_line(rt, alloc, &mut script, line, reply);
    }
    script
}

fn say_line(rt: &impl Abort, alloc: Global, script: &mut Script, line: Line, reply: &str) {
    let text = text_of(rt, alloc, line);
    script.say(rt, text.as_bytes(), reply);
}

#[test]
fn lines_at_their_bounds(rt: HostRuntime) {
    assert!(rt; answers_at_bounds(&rt, rt.alloc()));
}

fn answers_at_bounds(rt: &impl Abort, alloc: Global) -> bool {
    let script = lines_at_bounds(rt, alloc);
    is_served(rt, alloc, &script, 0)
}
