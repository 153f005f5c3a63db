//! JSON values: what stands at a key, copies, and objects that are made.
ghost use Rattle.std.specs.Prelude.{◌≡◌, true};
ghost use Rattle.mx_json.specs.Json.{is_valid};

use crate::fixtures::{canonical, json};
use mx_json::{Json, JsonObject};
use std::alloc::Global;
use std::process::Abort;

#[test]
fn a_copy_of_each_kind(rt: HostRuntime) {
    // Of a repeated key the last value stays.
    let text = r#"{"b":1,"z":[null,true,-7,"hi",{}],"a":2,"b":3}"#;
    let wanted = r#"{"a":2,"b":3,"z":[null,true,-7,"hi",{}]}"#;
    assert!(rt; is_copied_as(&rt, rt.alloc(), text, wanted));
}

fn is_copied_as(rt: &impl Abort, alloc: Global, text: &str, wanted: &str) -> bool {
    canonical(rt, alloc, &copy(rt, alloc, &json(rt, alloc, text))).as_slice() == wanted.as_bytes()
}

fn copy(rt: &impl Abort, alloc: Global, json: &Json) -> Json
    requires { is_valid json.now ≡ true }
    ensures { is_valid result ≡ true }
{
    json.copied(alloc).expect(rt, "a copy")
}

// What stands at a key, by kind: the value of a key of another kind is none.
#[test]
fn members_by_key(rt: HostRuntime) {
    let text = r#"{"list":[1,2],"text":"hi","truth":true,"whole":-7}"#;
    assert!(rt; has_the_members(&json(&rt, rt.alloc(), text)));
}

fn has_the_members(json: &Json) -> bool
    requires { is_valid json.now ≡ true }
{
    json.text_at("text") == Some("hi")
        && json.text_at("whole").is_none()
        && json.text_or_empty("list").is_empty()
        && json.truth_at("truth") == Some(true)
        && json.whole_at("whole") == Some(-7)
        && json.whole_at("absent").is_none()
        && json.list_at("list").map(|list| list.len()) == Some(2)
}

#[test]
fn an_object_that_is_made(rt: HostRuntime) {
    assert_eq!(rt; position_in(&made(&rt, rt.alloc())), Some(3));
}

fn made(rt: &impl Abort, alloc: Global) -> JsonObject {
    let object = JsonObject::new(alloc)
        .with(alloc, "error", Json::Null)
        .expect(rt, "an object");
    object
        .with(alloc, "position", Json::Whole(3))
        .expect(rt, "an object")
}

fn position_in(object: &JsonObject) -> Option<i64> {
    match object.pair_at(1) {
        Some(("position", Json::Whole(position))) => Some(*position),
        _ => None,
    }
}
