//! Which of a user's rules decides, and how rules are printed.
ghost use Rattle.std.specs.Prelude.{◌≡◌, [], ◌∷◌};

use crate::fixtures::{event, powers};
use crate::rules::rule;
use mx_cond::{Facts, PowerTable};
use mx_defaults::predefined;
use mx_event::Event;
use mx_glob::Scratch;
use mx_json::UserId;
use mx_rule::{Criterion, Kind, Rule, RuleList, RulePlace, Ruleset};
use mx_vectors::{PredefinedCase, predefined_cases, printed_predefined_rules};
use sqlite_items::Items;
use std::alloc::Global;
use std::process::Abort;

const SERVER: &str = "example.org";

/// The place of the rule that decides, for an owner whose name is Bob and a sender of power 50.
fn decide(
    rt: &impl Abort,
    alloc: Global,
    rules: &Ruleset,
    event: &Event,
    joined: u64,
) -> Option<RulePlace> {
    decide_with(
        rt,
        alloc,
        rules,
        event,
        "Bob",
        &powers(rt, alloc, None),
        joined,
    )
}

fn decide_with<'a>(
    rt: &impl Abort,
    alloc: Global,
    rules: &Ruleset,
    event: &'a Event,
    owner_name: &'a str,
    powers: &'a PowerTable,
    joined: u64,
) -> Option<RulePlace> {
    let facts = Facts {
        event,
        owner_name: Some(owner_name),
        joined,
        sender_power: 50,
        powers,
    };
    let mut scratch = Scratch::new(alloc).expect(rt, "a scratch");
    rules
        .decide(alloc, &facts, &mut scratch)
        .expect(rt, "an answer")
}

#[test]
fn the_master_comes_first(rt: HostRuntime) {
    for (master_is_enabled, sender, wanted) in [
        (true, "@a:x", Some(Kind::Override)),
        (false, "@a:x", Some(Kind::Sender)),
        (false, "@b:x", None),
    ] {
        let found = deciding(&rt, rt.alloc(), master_is_enabled, sender);
        assert_eq!(rt; found, wanted, "of {sender}");
    }
}

/// The kind of the rule that decides for an event of this sender, by a copy of the rules.
fn deciding(rt: &impl Abort, alloc: Global, master_is_enabled: bool, sender: &str) -> Option<Kind> {
    let rules = copy(rt, alloc, &master_and_sender(rt, alloc, master_is_enabled));
    let text = event_from(rt, alloc, sender);
    let place = decide(rt, alloc, &rules, &event(rt, alloc, text.as_str()), 2)?;
    Some(place.kind)
}

fn copy(rt: &impl Abort, alloc: Global, rules: &Ruleset) -> Ruleset {
    rules.copied(alloc).expect(rt, "a copy")
}

/// The master, and one sender's rule.
fn master_and_sender(rt: &impl Abort, alloc: Global, master_is_enabled: bool) -> Ruleset {
    let anything = Criterion::Conditions(Items::new(alloc));
    let master = rule(
        rt,
        alloc,
        ".m.rule.master",
        true,
        master_is_enabled,
        "[]",
        anything,
    );
    let sender = rule(rt, alloc, "@a:x", false, true, "[]", Criterion::FromSender);
    Ruleset::of(
        alone(rt, alloc, master),
        none(rt, alloc),
        none(rt, alloc),
        alone(rt, alloc, sender),
        none(rt, alloc),
    )
}

fn alone(rt: &impl Abort, alloc: Global, rule: Rule) -> RuleList
    ensures { result ≡ rule ∷ [] }
{
    let mut rules = Vec::new(alloc);
    rules.push(rule).expect(rt, "a list");
    RuleList::of(alloc, rules).expect(rt, "a list")
}

fn none(rt: &impl Abort, alloc: Global) -> RuleList
    ensures { result ≡ [] }
{
    RuleList::of(alloc, Vec::new(alloc)).expect(rt, "a list")
}

fn event_from(rt: &impl Abort, alloc: Global, sender: &str) -> String {
    format!(in alloc;
        r#"{{"content":{{}},"event_id":"$1","room_id":"!r:x","sender":"{sender}","type":"m"}}"#
    ).expect(rt, "an event's text")
}

#[test]
fn each_predefined_rule_decides_once(rt: HostRuntime) {
    for case in predefined_cases() {
        assert!(rt; decides(&rt, rt.alloc(), case), "at {}", case.fields);
    }
}

/// Whether the case's rule decides for the case's owner and event,
/// and none does where none is told.
fn decides(rt: &impl Abort, alloc: Global, case: &PredefinedCase) -> bool {
    let text = event_with(rt, alloc, case.fields);
    let rules = predefined_of(rt, alloc, case.owner);
    let event = event(rt, alloc, text.as_str());
    has_id(
        &rules,
        decide(rt, alloc, &rules, &event, case.joined),
        case.rule_id,
    )
}

fn event_with(rt: &impl Abort, alloc: Global, fields: &str) -> String {
    format!(in alloc;
        r#"{{{fields},"event_id":"$1","room_id":"!r:example.org","sender":"@a:example.org"}}"#
    ).expect(rt, "an event's text")
}

fn predefined_of(rt: &impl Abort, alloc: Global, owner: &str) -> Ruleset {
    let user = UserId::read(alloc, owner).expect(rt, owner);
    match user.localpart_on(SERVER) {
        Some(_) => predefined(alloc, &user, SERVER).expect(rt, owner),
        None => rt.panic(owner),
    }
}

fn has_id(rules: &Ruleset, place: Option<RulePlace>, wanted: Option<&str>) -> bool {
    match place {
        Some(place) => rules.rule_at(&place).map(|rule| rule.id()) == wanted,
        None => wanted.is_none(),
    }
}

#[test]
fn the_predefined_rules_as_they_are_printed(rt: HostRuntime) {
    let table = printed_predefined_rules();
    for (kind, wanted) in [
        (Kind::Override, table.override_),
        (Kind::Content, table.content),
        (Kind::Room, ""),
        (Kind::Sender, ""),
        (Kind::Underride, table.underride),
    ] {
        assert!(rt; are_printed(&rt, rt.alloc(), kind, wanted), "{kind:?}");
    }
}

fn are_printed(rt: &impl Abort, alloc: Global, kind: Kind, wanted: &str) -> bool {
    let rules = predefined_of(rt, alloc, "@b:example.org");
    printed(rt, alloc, rules.rules(kind)).as_slice() == wanted.as_bytes()
}

/// The rules as JSON, a line a rule.
fn printed(rt: &impl Abort, alloc: Global, rules: &[Rule]) -> Vec<u8> {
    let mut text = Vec::new(alloc);
    for rule in rules {
        rule.json_into(alloc, &mut text).expect(rt, "a text");
        text.push(b'\n').expect(rt, "a text");
    }
    text
}

#[test]
fn a_rule_of_a_user_as_it_is_printed(rt: HostRuntime) {
    let wanted = r#"{"actions":["notify"],"default":false,"enabled":true,"rule_id":"@a:x"}
"#;
    assert!(rt; is_sender_rule_printed(&rt, rt.alloc(), wanted));
}

fn is_sender_rule_printed(rt: &impl Abort, alloc: Global, wanted: &str) -> bool {
    let actions = r#"["notify"]"#;
    let rules = alone(
        rt,
        alloc,
        rule(
            rt,
            alloc,
            "@a:x",
            false,
            true,
            actions,
            Criterion::FromSender,
        ),
    );
    printed(rt, alloc, rules.as_slice()).as_slice() == wanted.as_bytes()
}
