ghost use Rattle.std.specs.Prelude.{◌≡◌, true};
ghost use Rattle.mx_json.specs.Json.{is_valid};

use crate::{Input, InputError, InputWord};
use mx_json::Json;
use std::alloc::Global;
use std::process::Abort;

/// The value that a text is.
fn json(rt: &impl Abort, alloc: Global, text: &str) -> Json
    ensures { is_valid result ≡ true }
{
    match Json::from_text(alloc, text.as_bytes(), 100) {
        Ok(json) => json,
        Err(_) => rt.panic(text),
    }
}

/// The name of the first wrong field; `none` where the text is an input.
fn wrong_field(rt: &impl Abort, alloc: Global, text: &str) -> &'static str {
    match Input::from_json(alloc, json(rt, alloc, text)) {
        Ok(_) => "none",
        Err(InputError::BadField(field)) => field.name(),
        Err(InputError::OutOfMemory) => rt.panic(text),
    }
}

/// Each text has this first wrong field.
fn have_wrong_fields(rt: &impl Abort, alloc: Global, cases: &[(&str, &str)]) {
    for (text, expected) in cases {
        assert_eq!(rt; wrong_field(rt, alloc, text), *expected, "{text}");
    }
}

#[test]
fn the_first_wrong_field_of_an_event(rt: HostRuntime) {
    have_wrong_fields(&rt, rt.alloc(), EVENTS);
}

#[rattlefmt::skip]
static EVENTS: &[(&str, &str)] = &[
    (r#"[{"cmd":"event"}]"#, "cmd"),
    (r#"{"event":{}}"#, "cmd"),
    (r#"{"cmd":"events","event":{}}"#, "cmd"),
    (r#"{"cmd":["event"],"event":{}}"#, "cmd"),
    (r#"{"cmd":"counts","user":"@a:b","room_id":"!r"}"#, "cmd"),
    (r#"{"cmd":"event"}"#, "event.event_id"),
    (r#"{"cmd":"event","event":[]}"#, "event.event_id"),
    (r#"{"cmd":"event","event":{"event_id":"$1","sender":"@a","type":7}}"#, "event.room_id"),
    (r#"{"cmd":"event","event":{"event_id":"$1","room_id":"!r","sender":"@a","type":7}}"#, "event.sender"),
    (r#"{"cmd":"event","event":{"event_id":"$1","room_id":"!r","sender":"@a:b","type":7}}"#, "event.type"),
    (r#"{"cmd":"event","event":{"event_id":"$1","room_id":"!r","sender":"@a:b","type":"t"}}"#, "event.content"),
    (r#"{"cmd":"event","event":{"event_id":"$1","room_id":"!r","sender":"@a:b","type":"t","content":{},"state_key":null}}"#,
        "event.state_key"),
    (r#"{"cmd":"event","event":{"event_id":"$1","room_id":"!r","sender":"@a:b","type":"t","content":{},"state_key":""},"ts":0}"#,
        "none"),
];

#[test]
fn the_first_wrong_field_of_a_put(rt: HostRuntime) {
    have_wrong_fields(&rt, rt.alloc(), PUTS);
}

#[rattlefmt::skip]
static PUTS: &[(&str, &str)] = &[
    (r#"{"cmd":"rule_put"}"#, "user"),
    (r#"{"cmd":"rule_put","user":"@a","kind":7}"#, "user"),
    (r#"{"cmd":"rule_put","user":"@a:b","rule_id":""}"#, "kind"),
    (r#"{"cmd":"rule_put","user":"@a:b","kind":"overrides","rule_id":""}"#, "kind"),
    (r#"{"cmd":"rule_put","user":"@a:b","kind":["room"],"rule_id":""}"#, "kind"),
    (r#"{"cmd":"rule_put","user":"@a:b","kind":"content","actions":{}}"#, "rule_id"),
    (r#"{"cmd":"rule_put","user":"@a:b","kind":"content","rule_id":"","actions":{}}"#, "rule_id"),
    (r#"{"cmd":"rule_put","user":"@a:b","kind":"content","rule_id":7,"actions":{}}"#, "rule_id"),
    (r#"{"cmd":"rule_put","user":"@a:b","kind":"content","rule_id":"r","conditions":{}}"#, "actions"),
    (r#"{"cmd":"rule_put","user":"@a:b","kind":"content","rule_id":"r","actions":null,"conditions":{}}"#, "actions"),
    (r#"{"cmd":"rule_put","user":"@a:b","kind":"content","rule_id":"r","actions":[],"conditions":{},"pattern":7}"#, "conditions"),
    (r#"{"cmd":"rule_put","user":"@a:b","kind":"override","rule_id":"r","actions":[],"conditions":null,"pattern":7}"#,
        "conditions"),
    (r#"{"cmd":"rule_put","user":"@a:b","kind":"override","rule_id":"r","actions":[],"pattern":null,"before":7}"#, "pattern"),
    (r#"{"cmd":"rule_put","user":"@a:b","kind":"room","rule_id":"r","actions":[],"pattern":"p","before":null,"after":7}"#,
        "before"),
    (r#"{"cmd":"rule_put","user":"@a:b","kind":"room","rule_id":"r","actions":[],"before":"r","after":null}"#, "after"),
    (r#"{"cmd":"rule_put","user":"@a:b","kind":"room","rule_id":"r","actions":[]}"#, "none"),
    (r#"{"cmd":"rule_put","user":"@a:b","kind":"content","rule_id":"r","actions":[7],"conditions":[7],"pattern":"","before":"","after":""}"#,
        "none"),
];

#[test]
fn the_first_wrong_field_of_another_edit(rt: HostRuntime) {
    have_wrong_fields(&rt, rt.alloc(), EDITS);
}

#[rattlefmt::skip]
static EDITS: &[(&str, &str)] = &[
    (r#"{"cmd":"rule_delete","user":"b","kind":"rooms"}"#, "user"),
    (r#"{"cmd":"rule_delete","user":"@a:b","kind":"rooms","rule_id":""}"#, "kind"),
    (r#"{"cmd":"rule_delete","user":"@a:b","kind":"override"}"#, "rule_id"),
    (r#"{"cmd":"rule_delete","user":"@a:b","kind":"underride","rule_id":"r","actions":7}"#, "none"),
    (r#"{"cmd":"rule_enable","kind":"rooms","enabled":1}"#, "user"),
    (r#"{"cmd":"rule_enable","user":"@a:b","enabled":1}"#, "kind"),
    (r#"{"cmd":"rule_enable","user":"@a:b","kind":"sender","rule_id":[],"enabled":1}"#, "rule_id"),
    (r#"{"cmd":"rule_enable","user":"@a:b","kind":"sender","rule_id":"r"}"#, "enabled"),
    (r#"{"cmd":"rule_enable","user":"@a:b","kind":"sender","rule_id":"r","enabled":"true"}"#, "enabled"),
    (r#"{"cmd":"rule_enable","user":"@a:b","kind":"sender","rule_id":"r","enabled":false}"#, "none"),
    (r#"{"cmd":"rule_actions","user":7,"actions":[]}"#, "user"),
    (r#"{"cmd":"rule_actions","user":"@a:b","kind":null,"actions":7}"#, "kind"),
    (r#"{"cmd":"rule_actions","user":"@a:b","kind":"room","actions":7}"#, "rule_id"),
    (r#"{"cmd":"rule_actions","user":"@a:b","kind":"room","rule_id":"r"}"#, "actions"),
    (r#"{"cmd":"rule_actions","user":"@a:b","kind":"room","rule_id":"r","actions":"notify"}"#, "actions"),
    (r#"{"cmd":"rule_actions","user":"@a:b","kind":"room","rule_id":"r","actions":["notify"]}"#, "none"),
];

#[test]
fn the_first_wrong_field_of_a_receipt(rt: HostRuntime) {
    have_wrong_fields(&rt, rt.alloc(), RECEIPTS);
}

#[rattlefmt::skip]
static RECEIPTS: &[(&str, &str)] = &[
    (r#"{"cmd":"receipt"}"#, "user"),
    (r#"{"cmd":"receipt","user":"@a","room_id":7}"#, "user"),
    (r#"{"cmd":"receipt","user":"@a:b","event_id":"$1","type":"m.read"}"#, "room_id"),
    (r#"{"cmd":"receipt","user":"@a:b","room_id":"$1","event_id":"!r"}"#, "room_id"),
    (r#"{"cmd":"receipt","user":"@a:b","room_id":"!r","type":"m.read"}"#, "event_id"),
    (r#"{"cmd":"receipt","user":"@a:b","room_id":"!r","event_id":"!r","type":7}"#, "event_id"),
    (r#"{"cmd":"receipt","user":"@a:b","room_id":"!r","event_id":"$1","thread_id":7}"#, "type"),
    (r#"{"cmd":"receipt","user":"@a:b","room_id":"!r","event_id":"$1","type":"m.fully_read"}"#, "type"),
    (r#"{"cmd":"receipt","user":"@a:b","room_id":"!r","event_id":"$1","type":["m.read"]}"#, "type"),
    (r#"{"cmd":"receipt","user":"@a:b","room_id":"!r","event_id":"$1","type":"m.read","thread_id":null}"#, "thread_id"),
    (r#"{"cmd":"receipt","user":"@a:b","room_id":"!r","event_id":"$1","type":"m.read","thread_id":"Main"}"#, "thread_id"),
    (r#"{"cmd":"receipt","user":"@a:b","room_id":"!r","event_id":"$1","type":"m.read","thread_id":"$"}"#, "thread_id"),
    (r#"{"cmd":"receipt","user":"@a:b","room_id":"!r","event_id":"$1","type":"m.read","thread_id":"!r"}"#, "thread_id"),
    (r#"{"cmd":"receipt","user":"@a:b","room_id":"!r","event_id":"$1","type":"m.read"}"#, "none"),
    (r#"{"cmd":"receipt","user":"@a:b","room_id":"!r","event_id":"$1","type":"m.read","thread_id":"main"}"#, "none"),
    (r#"{"cmd":"receipt","user":"@a:b","room_id":"!r","event_id":"$1","type":"m.read.private","thread_id":"$2"}"#, "none"),
];

/// A deletion of a rule whose id has so many bytes.
fn long_deletion(rt: &impl Abort, alloc: Global, length: usize) -> String {
    format!(in alloc;
        r#"{{"cmd":"rule_delete","kind":"room","rule_id":"{:x>length$}","user":"@a:b"}}"#,
        ""
    )
    .expect(rt, "a deletion's text")
}

#[test]
fn a_rule_id_has_at_most_512_bytes(rt: HostRuntime) {
    for (length, expected) in [(1, "none"), (512, "none"), (513, "rule_id")] {
        let text = long_deletion(&rt, rt.alloc(), length);
        let found = wrong_field(&rt, rt.alloc(), text.as_str());
        assert_eq!(rt; found, expected, "at {length}");
    }
}

/// The word that a text has under `cmd`.
fn word_of(rt: &impl Abort, alloc: Global, text: &str) -> Option<InputWord> {
    InputWord::of(&json(rt, alloc, text))
}

#[test]
fn an_input_has_its_word_under_cmd(rt: HostRuntime) {
    let found = word_of(&rt, rt.alloc(), r#"{"cmd":"rule_put"}"#);
    assert_eq!(rt; found, Some(InputWord::RulePut));
    assert_eq!(rt; InputWord::named("counts"), None);
}
