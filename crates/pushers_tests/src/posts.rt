//! What is posted of an event, field by field there and away.
ghost use Rattle.std.specs.Prelude.{◌≡◌, ◌≤◌, true, IfSome, IsSome};
ghost use Rattle.mx_json.specs.Json.{is_valid, largest_whole};
ghost use Rattle.mx_json.specs.declared.value.Json.{Object as ObjectValue};

use mx_event::Event;
use mx_json::{Json, JsonObject, JsonText, UserId};
use mx_post::request_into;
use mx_records::{HttpPusher, PendingEvent, PusherSpec, Tweaks};
use mx_wire::Target;
use std::alloc::Global;
use std::process::Abort;

/// A post: the pusher's `data` beside its URL, the event's fields behind its `event_id`, the
/// sender's display name, whether the event is highlighted, its sound, and the body. An empty name
/// or sound is none.
type Case = (
    &'static str,
    &'static str,
    &'static str,
    bool,
    &'static str,
    &'static str,
);

const URL: &str = "https://push.example/_matrix/push/v1/notify";

fn json(rt: &impl Abort, alloc: Global, text: &str) -> Json
    ensures { is_valid result ≡ true }
{
    Json::from_text(alloc, text.as_bytes(), 100).expect(rt, text)
}

fn text(rt: &impl Abort, alloc: Global, text: &str) -> JsonText {
    JsonText::read(alloc, text).expect(rt, text)
}

fn text_or_none(rt: &impl Abort, alloc: Global, given: &str) -> Option<JsonText> {
    if given.is_empty() {
        None
    } else {
        Some(text(rt, alloc, given))
    }
}

fn user(rt: &impl Abort, alloc: Global, id: &str) -> UserId {
    UserId::read(alloc, id).expect(rt, id)
}

/// A pusher's `data`.
fn details(rt: &impl Abort, alloc: Global, given: &str) -> JsonObject
    ensures { is_valid (ObjectValue result) ≡ true }
{
    match json(rt, alloc, given) {
        Json::Object(details) => details,
        _ => rt.panic(given),
    }
}

fn http(rt: &impl Abort, alloc: Global, given: &str) -> HttpPusher
    ensures details { is_valid (ObjectValue result.details) ≡ true }
    ensures seconds { result.ts ≤ largest_whole }
{
    HttpPusher {
        details: details(rt, alloc, given),
        app_display_name: text(rt, alloc, "App"),
        device_display_name: text(rt, alloc, "Phone"),
        lang: text(rt, alloc, "en"),
        append: None,
        ts: 1_700_000_000,
    }
}

fn spec(rt: &impl Abort, alloc: Global, given: &str) -> PusherSpec
    ensures posts { IsSome result.http }
    ensures details { IfSome result.http (λ http. is_valid (ObjectValue http.details) ≡ true) }
    ensures seconds { IfSome result.http (λ http. http.ts ≤ largest_whole) }
{
    PusherSpec {
        http: Some(http(rt, alloc, given)),
        user: user(rt, alloc, "@b:example.org"),
        pushkey: text(rt, alloc, "k1"),
        app_id: text(rt, alloc, "app"),
    }
}

fn event(rt: &impl Abort, alloc: Global, fields: &str) -> Event {
    let text = format!(in alloc;
        "{{\"event_id\":\"$3\",\"room_id\":\"!r:example.org\",\"sender\":\"@a:example.org\",{fields}}}"
    ).expect(rt, fields);
    Event::from_json(alloc, json(rt, alloc, text.as_str())).expect(rt, fields)
}

/// The event at position 4, pending for the pusher's user.
fn pending(rt: &impl Abort, alloc: Global, case: &Case) -> PendingEvent {
    let (_, fields, name, highlight, sound, _) = *case;
    let mut pending = PendingEvent::new(
        alloc,
        event(rt, alloc, fields),
        4,
        text_or_none(rt, alloc, name),
    )
    .expect(rt, fields);
    let tweaks = Tweaks {
        highlight,
        sound: text_or_none(rt, alloc, sound),
    };
    pending
        .add(user(rt, alloc, "@b:example.org"), tweaks)
        .expect(rt, fields);
    pending
}

/// The request.
fn posted(
    rt: &impl Abort,
    alloc: Global,
    target: &Target,
    spec: &PusherSpec,
    pending: &PendingEvent,
) -> Vec<u8>
    requires posts { IsSome spec.now.http }
    requires details { IfSome spec.now.http (λ http. is_valid (ObjectValue http.details) ≡ true) }
    requires seconds { IfSome spec.now.http (λ http. http.ts ≤ largest_whole) }
{
    let mut out = Vec::new(alloc);
    match pending.tweaks(&spec.user) {
        Some(_) => request_into(alloc, target, spec, pending, 1, &mut out).expect(rt, "memory"),
        None => rt.panic("pending for nobody"),
    }
    out
}

fn posted_to(rt: &impl Abort, alloc: Global, spec: &PusherSpec, pending: &PendingEvent) -> Vec<u8>
    requires posts { IsSome spec.now.http }
    requires details { IfSome spec.now.http (λ http. is_valid (ObjectValue http.details) ≡ true) }
    requires seconds { IfSome spec.now.http (λ http. http.ts ≤ largest_whole) }
{
    let target = Target::read(alloc, URL).expect(rt, URL);
    posted(rt, alloc, &target, spec, pending)
}

fn posted_by(rt: &impl Abort, alloc: Global, data: &str, pending: &PendingEvent) -> Vec<u8> {
    let spec = spec(rt, alloc, data);
    posted_to(rt, alloc, &spec, pending)
}

fn request_of(rt: &impl Abort, alloc: Global, case: &Case) -> Vec<u8> {
    let pending = pending(rt, alloc, case);
    posted_by(rt, alloc, case.0, &pending)
}

/// Whether the request with this body is what is posted.
fn is_posted(rt: &impl Abort, alloc: Global, case: &Case) -> bool {
    let expected = format!(in alloc;
        "POST {URL} HTTP/1.1\r\nHost: push.example\r\nContent-Type: application/json\r\nContent-Length: {}\r\nConnection: close\r\n\r\n{}",
        case.5.len(),
        case.5
    )
    .expect(rt, case.5);
    is_request(rt, alloc, case, expected.as_bytes())
}

fn is_request(rt: &impl Abort, alloc: Global, case: &Case, expected: &[u8]) -> bool {
    let request = request_of(rt, alloc, case);
    request.as_slice() == expected
}

#[test]
fn a_post_tells_what_is_known(rt: HostRuntime) {
    for case in &CASES {
        assert!(rt; is_posted(&rt, rt.alloc(), case), "{}", case.5);
    }
}

#[test]
fn a_post_is_a_head_of_five_lines_and_a_body(rt: HostRuntime) {
    assert_eq!(rt; CASES[0].5.len(), 297);
    assert_eq!(rt; CASES[1].5.len(), 185);
    assert!(rt; is_request(&rt, rt.alloc(), &CASES[0], REQUEST.as_bytes()));
}

#[rattlefmt::skip]
static REQUEST: &str = "POST https://push.example/_matrix/push/v1/notify HTTP/1.1\r\n\
    Host: push.example\r\n\
    Content-Type: application/json\r\n\
    Content-Length: 297\r\n\
    Connection: close\r\n\
    \r\n\
    {\"notification\":{\"content\":{\"body\":\"hi\",\"msgtype\":\"m.text\"},\"counts\":{\"unread\":1},\
    \"devices\":[{\"app_id\":\"app\",\"data\":{},\"pushkey\":\"k1\",\"pushkey_ts\":1700000000,\
    \"tweaks\":{\"sound\":\"default\"}}],\"event_id\":\"$3\",\"prio\":\"high\",\
    \"room_id\":\"!r:example.org\",\"sender\":\"@a:example.org\",\"type\":\"m.room.message\"}}";

#[rattlefmt::skip]
static CASES: [Case; 10] = [
    // A message with a sound, whole and by its id alone.
    (r#"{"url":"https://push.example/_matrix/push/v1/notify"}"#,
        r#""type":"m.room.message","content":{"body":"hi","msgtype":"m.text"}"#, "", false, "default",
        r#"{"notification":{"content":{"body":"hi","msgtype":"m.text"},"counts":{"unread":1},"devices":[{"app_id":"app","data":{},"pushkey":"k1","pushkey_ts":1700000000,"tweaks":{"sound":"default"}}],"event_id":"$3","prio":"high","room_id":"!r:example.org","sender":"@a:example.org","type":"m.room.message"}}"#),
    (r#"{"format":"event_id_only","url":"https://push.example/_matrix/push/v1/notify"}"#,
        r#""type":"m.room.message","content":{"body":"hi","msgtype":"m.text"}"#, "Alice", true, "default",
        r#"{"notification":{"counts":{"unread":1},"devices":[{"app_id":"app","data":{"format":"event_id_only"},"pushkey":"k1","pushkey_ts":1700000000}],"event_id":"$3","room_id":"!r:example.org"}}"#),
    // A display name; neither sound nor highlight.
    (r#"{"url":"u"}"#, r#""type":"m.room.message","content":{"body":"hi"}"#, "Alice", false, "",
        r#"{"notification":{"content":{"body":"hi"},"counts":{"unread":1},"devices":[{"app_id":"app","data":{},"pushkey":"k1","pushkey_ts":1700000000,"tweaks":{}}],"event_id":"$3","prio":"low","room_id":"!r:example.org","sender":"@a:example.org","sender_display_name":"Alice","type":"m.room.message"}}"#),
    // A highlight, alone and with a sound.
    (r#"{"url":"u"}"#, r#""type":"m.room.message","content":{}"#, "", true, "",
        r#"{"notification":{"content":{},"counts":{"unread":1},"devices":[{"app_id":"app","data":{},"pushkey":"k1","pushkey_ts":1700000000,"tweaks":{"highlight":true}}],"event_id":"$3","prio":"high","room_id":"!r:example.org","sender":"@a:example.org","type":"m.room.message"}}"#),
    (r#"{"url":"u"}"#, r#""type":"m.room.message","content":{}"#, "", true, "ring",
        r#"{"notification":{"content":{},"counts":{"unread":1},"devices":[{"app_id":"app","data":{},"pushkey":"k1","pushkey_ts":1700000000,"tweaks":{"highlight":true,"sound":"ring"}}],"event_id":"$3","prio":"high","room_id":"!r:example.org","sender":"@a:example.org","type":"m.room.message"}}"#),
    // Events that set a membership: the user's own, and another's.
    (r#"{"url":"u"}"#, r#""type":"m.room.member","state_key":"@b:example.org","content":{"membership":"invite"}"#, "", false, "",
        r#"{"notification":{"content":{"membership":"invite"},"counts":{"unread":1},"devices":[{"app_id":"app","data":{},"pushkey":"k1","pushkey_ts":1700000000,"tweaks":{}}],"event_id":"$3","prio":"low","room_id":"!r:example.org","sender":"@a:example.org","type":"m.room.member","user_is_target":true}}"#),
    (r#"{"url":"u"}"#, r#""type":"m.room.member","state_key":"@c:example.org","content":{"membership":"ban"}"#, "", false, "",
        r#"{"notification":{"content":{"membership":"ban"},"counts":{"unread":1},"devices":[{"app_id":"app","data":{},"pushkey":"k1","pushkey_ts":1700000000,"tweaks":{}}],"event_id":"$3","prio":"low","room_id":"!r:example.org","sender":"@a:example.org","type":"m.room.member","user_is_target":false}}"#),
    // Events that set none: no state event, and another one of the user's.
    (r#"{"url":"u"}"#, r#""type":"m.room.member","content":{}"#, "", false, "",
        r#"{"notification":{"content":{},"counts":{"unread":1},"devices":[{"app_id":"app","data":{},"pushkey":"k1","pushkey_ts":1700000000,"tweaks":{}}],"event_id":"$3","prio":"low","room_id":"!r:example.org","sender":"@a:example.org","type":"m.room.member"}}"#),
    (r#"{"url":"u"}"#, r#""type":"m.room.topic","state_key":"@b:example.org","content":{}"#, "", false, "",
        r#"{"notification":{"content":{},"counts":{"unread":1},"devices":[{"app_id":"app","data":{},"pushkey":"k1","pushkey_ts":1700000000,"tweaks":{}}],"event_id":"$3","prio":"low","room_id":"!r:example.org","sender":"@a:example.org","type":"m.room.topic"}}"#),
    // `data` with other members, before and behind the URL.
    (r#"{"a":1,"format":"whole","url":"u","urls":["u"],"z":{"url":"v"}}"#, r#""type":"m.room.message","content":{}"#,
        "", false, "",
        r#"{"notification":{"content":{},"counts":{"unread":1},"devices":[{"app_id":"app","data":{"a":1,"format":"whole","urls":["u"],"z":{"url":"v"}},"pushkey":"k1","pushkey_ts":1700000000,"tweaks":{}}],"event_id":"$3","prio":"low","room_id":"!r:example.org","sender":"@a:example.org","type":"m.room.message"}}"#),
];
