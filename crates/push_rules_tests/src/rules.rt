//! Push rules: what one asks, which one decides, what its actions mean, how it is printed.
ghost use Rattle.std.specs.Prelude.{◌≡◌};

use crate::fixtures::{event, json, list, powers};
use mx_cond::{Condition, Facts, PowerTable};
use mx_event::Event;
use mx_glob::Scratch;
use mx_json::JsonText;
use mx_rule::{Actions, Criterion, Edit, Kind, Pattern, Rule, Verdict};
use mx_vectors::{ActionsCase, actions_cases};
use sqlite_items::Items;
use std::alloc::Global;
use std::process::Abort;

#[test]
fn what_actions_mean(rt: HostRuntime) {
    for case in actions_cases() {
        assert!(rt; is_meant(&rt, rt.alloc(), case), "at {}", case.actions);
    }
}

/// Whether a rule with the case's actions has the case's verdict.
fn is_meant(rt: &impl Abort, alloc: Global, case: &ActionsCase) -> bool {
    let rule = rule(rt, alloc, "r", false, true, case.actions, Criterion::InRoom);
    is_verdict(&rule.verdict(alloc).expect(rt, "a verdict"), case)
}

fn is_verdict(verdict: &Verdict, case: &ActionsCase) -> bool {
    let sound = verdict.sound.as_ref().map(|sound| sound.as_str());
    verdict.notify == case.notify && verdict.highlight == case.highlight && sound == case.sound
}

pub(crate) fn rule(
    rt: &impl Abort,
    alloc: Global,
    id: &str,
    predefined: bool,
    enabled: bool,
    actions: &str,
    criterion: Criterion,
) -> Rule
    ensures id { result.id ≡ id.now }
    ensures predefined { result.predefined ≡ predefined }
    ensures criterion { result.criterion ≡ criterion }
{
    let id = JsonText::read(alloc, id).expect(rt, "an id");
    Rule::new(
        id,
        predefined,
        enabled,
        actions_of(rt, alloc, actions),
        criterion,
    )
}

fn actions_of(rt: &impl Abort, alloc: Global, text: &str) -> Actions {
    Actions::read(alloc, list(rt, alloc, text)).expect(rt, text)
}

const MESSAGE: &str =
    r#"{"content":{"body":"a cake"},"event_id":"$1","room_id":"!r:x","sender":"@a:x","type":"m.room.message"}"#;

#[test]
fn what_a_rule_asks(rt: HostRuntime) {
    for (kind, asked, id, wanted) in [
        (
            Kind::Override,
            r#"{"kind":"event_match","key":"type","pattern":"m.*"}"#,
            "r",
            true,
        ),
        (
            Kind::Underride,
            r#"{"kind":"event_match","key":"type","pattern":"n.*"}"#,
            "r",
            false,
        ),
        (Kind::Content, "cake", "r", true),
        (Kind::Content, "ca", "r", false),
        (Kind::Room, "", "!r:x", true),
        (Kind::Room, "", "@a:x", false),
        (Kind::Sender, "", "@a:x", true),
        (Kind::Sender, "", "!r:x", false),
    ] {
        let found = is_met(&rt, rt.alloc(), kind, asked, id);
        assert_eq!(rt; found, wanted, "of {id}: {asked}");
    }
}

/// Whether the message meets what a rule of this kind and id asks, by a copy of it.
fn is_met(rt: &impl Abort, alloc: Global, kind: Kind, asked: &str, id: &str) -> bool {
    let criterion = criterion(rt, alloc, kind, asked);
    is_met_by(
        rt,
        alloc,
        &copy(rt, alloc, &criterion),
        id,
        &event(rt, alloc, MESSAGE),
    )
}

fn criterion(rt: &impl Abort, alloc: Global, kind: Kind, asked: &str) -> Criterion {
    match kind {
        Kind::Override | Kind::Underride => condition(rt, alloc, asked),
        Kind::Content => Criterion::Word(Pattern::read(alloc, asked).expect(rt, asked)),
        Kind::Room => Criterion::InRoom,
        Kind::Sender => Criterion::FromSender,
    }
}

fn condition(rt: &impl Abort, alloc: Global, text: &str) -> Criterion {
    let condition = Condition::from_json(alloc, &json(rt, alloc, text)).expect(rt, text);
    let mut conditions = Items::new(alloc);
    conditions.push(condition).expect(rt, text);
    Criterion::Conditions(conditions)
}

fn copy(rt: &impl Abort, alloc: Global, criterion: &Criterion) -> Criterion {
    criterion.copied(alloc).expect(rt, "a copy")
}

fn is_met_by(
    rt: &impl Abort,
    alloc: Global,
    criterion: &Criterion,
    id: &str,
    event: &Event,
) -> bool {
    is_met_with(rt, alloc, criterion, id, event, &powers(rt, alloc, None))
}

fn is_met_with<'a>(
    rt: &impl Abort,
    alloc: Global,
    criterion: &Criterion,
    id: &str,
    event: &'a Event,
    powers: &'a PowerTable,
) -> bool {
    let facts = Facts {
        event,
        owner_name: None,
        joined: 2,
        sender_power: 0,
        powers,
    };
    let mut scratch = Scratch::new(alloc).expect(rt, "a scratch");
    criterion
        .is_met(alloc, id, &facts, &mut scratch)
        .expect(rt, "an answer")
}

#[test]
fn a_copied_edit_says_the_same(rt: HostRuntime) {
    assert!(rt; is_the_put(&copied_edit(&rt, rt.alloc(), &put(&rt, rt.alloc()))));
}

/// A put of a content rule, in which one field that may be absent is.
fn put(rt: &impl Abort, alloc: Global) -> Edit {
    Edit::Put {
        kind: Kind::Content,
        rule_id: text(rt, alloc, "dinner"),
        pattern: Some(text(rt, alloc, "cake")),
        conditions: Some(list(rt, alloc, "[]")),
        actions: list(rt, alloc, r#"["notify",{"set_tweak":"highlight"}]"#),
        before: None,
        after: Some(text(rt, alloc, "lunch")),
    }
}

fn text(rt: &impl Abort, alloc: Global, text: &str) -> JsonText {
    JsonText::read(alloc, text).expect(rt, text)
}

fn copied_edit(rt: &impl Abort, alloc: Global, edit: &Edit) -> Edit {
    edit.copied(alloc).expect(rt, "a copy")
}

fn is_the_put(edit: &Edit) -> bool {
    match edit {
        Edit::Put {
            kind: Kind::Content,
            rule_id,
            pattern: Some(pattern),
            conditions: Some(conditions),
            actions,
            before: None,
            after: Some(after),
        } => {
            rule_id.as_str() == "dinner"
                && pattern.as_str() == "cake"
                && conditions.is_empty()
                && actions.len() == 2
                && after.as_str() == "lunch"
        }
        _ => false,
    }
}
