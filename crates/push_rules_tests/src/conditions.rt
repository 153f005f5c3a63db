//! Conditions of push rules, and the powers that they read.
use crate::fixtures::{canonical, event, json, powers};
use mx_cond::{Condition, ConditionError, Facts, PowerTable};
use mx_event::Event;
use mx_glob::Scratch;
use mx_vectors::{
    ConditionCase, contains_display_name_cases, event_match_cases, event_property_cases,
    other_condition_cases, room_member_count_cases, sender_notification_permission_cases,
};
use std::alloc::Global;
use std::process::Abort;

#[test]
fn answers_the_tables(rt: HostRuntime) {
    for cases in [
        event_match_cases(),
        event_property_cases(),
        room_member_count_cases(),
        sender_notification_permission_cases(),
        contains_display_name_cases(),
        other_condition_cases(),
    ] {
        for case in cases {
            assert_eq!(rt; answer(&rt, rt.alloc(), case), case.holds, "{}", case.name);
        }
    }
}

/// Whether the case's condition holds, asked of a copy; none where it is no condition.
fn answer(rt: &impl Abort, alloc: Global, case: &ConditionCase) -> Option<bool> {
    match Condition::from_json(alloc, &json(rt, alloc, case.condition)) {
        Ok(condition) => Some(holds(rt, alloc, &copy(rt, alloc, &condition), case)),
        Err(error) => {
            assert_eq!(rt; error, ConditionError::BadCondition);
            None
        }
    }
}

fn copy(rt: &impl Abort, alloc: Global, condition: &Condition) -> Condition {
    condition.copied(alloc).expect(rt, "a copy")
}

fn holds(rt: &impl Abort, alloc: Global, condition: &Condition, case: &ConditionCase) -> bool {
    let text = event_text(rt, alloc, case.content);
    holds_of(rt, alloc, condition, &event(rt, alloc, text.as_str()), case)
}

/// An event with this content.
fn event_text(rt: &impl Abort, alloc: Global, content: &str) -> String {
    format!(in alloc;
        r#"{{"content":{content},"event_id":"$1","origin_server_ts":1,"room_id":"!r:example.org","sender":"@a:example.org","state_key":"","type":"m.room.message","unsigned":{{"age":1234}}}}"#
    ).expect(rt, "an event's text")
}

fn holds_of(
    rt: &impl Abort,
    alloc: Global,
    condition: &Condition,
    event: &Event,
    case: &ConditionCase,
) -> bool {
    let powers = powers(rt, alloc, case.facts.power_levels);
    holds_with(
        rt,
        alloc,
        condition,
        event,
        case.facts.owner_name,
        &powers,
        case,
    )
}

fn holds_with<'a>(
    rt: &impl Abort,
    alloc: Global,
    condition: &Condition,
    event: &'a Event,
    owner_name: Option<&'a str>,
    powers: &'a PowerTable,
    case: &ConditionCase,
) -> bool {
    let facts = Facts {
        event,
        owner_name,
        joined: case.facts.joined,
        sender_power: case.facts.sender_power,
        powers,
    };
    let mut scratch = Scratch::new(alloc).expect(rt, "a scratch");
    condition
        .holds(alloc, &facts, &mut scratch)
        .expect(rt, "an answer")
}

const LEVELS: &str =
    r#"{"notifications":{"room":60,"x":null},"users":{"@a:b":100,"@c:d":"100"},"users_default":7}"#;

#[test]
fn powers_of_users(rt: HostRuntime) {
    for (content, user, wanted) in [
        (Some(LEVELS), "@a:b", Some(100)),
        (Some(LEVELS), "@c:d", Some(7)),
        (Some(LEVELS), "@e:f", Some(7)),
        (Some("{}"), "@a:b", Some(0)),
        (None, "@a:b", None),
    ] {
        assert_eq!(rt; power(&rt, rt.alloc(), content, user), wanted, "of {user}");
    }
}

fn power(rt: &impl Abort, alloc: Global, content: Option<&str>, user: &str) -> Option<i64> {
    powers(rt, alloc, content).power(user)
}

#[test]
fn powers_that_a_notification_needs(rt: HostRuntime) {
    for (key, wanted) in [("room", 60), ("x", 50)] {
        assert_eq!(rt; needed(&rt, rt.alloc(), LEVELS, key), wanted, "for {key}");
    }
}

fn needed(rt: &impl Abort, alloc: Global, content: &str, key: &str) -> i64 {
    powers(rt, alloc, Some(content)).needed(key)
}

/// A condition with a pattern of so many bytes.
fn long_condition(rt: &impl Abort, alloc: Global, length: usize) -> String {
    format!(in alloc;
        r#"{{"key":"type","kind":"event_match","pattern":"{:x>length$}"}}"#,
        ""
    )
    .expect(rt, "a condition's text")
}

#[test]
fn patterns_have_at_most_1024_bytes(rt: HostRuntime) {
    for (length, wanted) in [(1024, true), (1025, false)] {
        let text = long_condition(&rt, rt.alloc(), length);
        let found = is_printed_as_read(&rt, rt.alloc(), text.as_str());
        assert_eq!(rt; found, wanted, "at {length}");
    }
}

/// Whether a text is a condition, which is then printed as that text.
fn is_printed_as_read(rt: &impl Abort, alloc: Global, text: &str) -> bool {
    match Condition::from_json(alloc, &json(rt, alloc, text)) {
        Ok(condition) => canonical(rt, alloc, condition.json()).as_slice() == text.as_bytes(),
        Err(error) => {
            assert_eq!(rt; error, ConditionError::BadCondition);
            false
        }
    }
}
