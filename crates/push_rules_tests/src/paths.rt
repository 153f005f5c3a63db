//! Paths, and the values that they lead to.
use crate::fixtures::{canonical, json};
use mx_json::{Json, Path};
use std::alloc::Global;
use std::process::Abort;

#[test]
fn segments_of_a_text(rt: HostRuntime) {
    for (text, wanted) in [
        ("", [""].as_slice()),
        ("type", ["type"].as_slice()),
        ("content.body", ["content", "body"].as_slice()),
        ("content.", ["content", ""].as_slice()),
        (".", ["", ""].as_slice()),
        (
            r"content.m\.mentions.user_ids",
            ["content", "m.mentions", "user_ids"].as_slice(),
        ),
        (
            "content.m.mentions.user_ids",
            ["content", "m", "mentions", "user_ids"].as_slice(),
        ),
        (r"a\\b", [r"a\b"].as_slice()),
        (r"a\\.b", [r"a\", "b"].as_slice()),
        (r"\\\.", [r"\."].as_slice()),
        (r"\x", [r"\x"].as_slice()),
        (r"\é.日本", [r"\é", "日本"].as_slice()),
        (r"a\", [r"a\"].as_slice()),
    ] {
        assert!(rt;
            has_segments(&copy(&rt, rt.alloc(), &path(&rt, rt.alloc(), text)), wanted),
            "at {text}"
        );
    }
}

fn path(rt: &impl Abort, alloc: Global, text: &str) -> Path {
    Path::read(alloc, text).expect(rt, text)
}

fn copy(rt: &impl Abort, alloc: Global, path: &Path) -> Path {
    path.copied(alloc).expect(rt, "a copy")
}

fn has_segments(path: &Path, wanted: &[&str]) -> bool {
    let read = path.segments();
    read.len() == wanted.len() && read.iter().zip(wanted).all(|(a, b)| a.as_str() == *b)
}

const EVENT: &str =
    r#"{"content":{"m.mentions":{"user_ids":["@b:example.org"]},"":0,"a\\b":1},"list":[{"a":1}],"type":"m.room.message"}"#;

#[test]
fn values_at_a_path(rt: HostRuntime) {
    for (value, path, wanted) in [
        (
            EVENT,
            r"content.m\.mentions.user_ids",
            Some(r#"["@b:example.org"]"#),
        ),
        (EVENT, "content.m.mentions.user_ids", None),
        (EVENT, "type", Some(r#""m.room.message""#)),
        (EVENT, "type.", None),
        (EVENT, "", None),
        (EVENT, "content.", Some("0")),
        (EVENT, r"content.a\\b", Some("1")),
        (EVENT, r"content.a\b", Some("1")),
        (EVENT, r"content.a\.b", None),
        (EVENT, "list", Some(r#"[{"a":1}]"#)),
        (EVENT, "list.0", None),
        (EVENT, "list.a", None),
        (EVENT, "typo", None),
        (r#"{"":{"":true}}"#, ".", Some("true")),
        (r#"{"":7}"#, "", Some("7")),
    ] {
        assert!(rt;
            stands_at(&rt, rt.alloc(), value, path, wanted),
            "at {path}"
        );
    }
}

/// Whether the value at the path is printed so, and none stands there where none is wanted.
fn stands_at(
    rt: &impl Abort,
    alloc: Global,
    value: &str,
    path_text: &str,
    wanted: Option<&str>,
) -> bool {
    let value = json(rt, alloc, value);
    match (value.look(&path(rt, alloc, path_text)), wanted) {
        (Some(found), Some(wanted)) => {
            canonical(rt, alloc, found).as_slice() == wanted.as_bytes()
        }
        (found, wanted) => found.is_none() && wanted.is_none(),
    }
}
