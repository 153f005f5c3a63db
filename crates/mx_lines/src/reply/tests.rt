//! The texts of replies.

ghost use Rattle.std.specs.Prelude.{◌≡◌};

use super::{denied_into, ok_into, rules_into};
use crate::{Denial, LineRefusal};
use mx_defaults::predefined;
use mx_json::UserId;
use mx_records::{FieldName, Refusal};
use mx_rule::{Part, Ruleset};
use std::alloc::Global;
use std::process::Abort;
use std::test::Fail;

#[test]
fn texts(rt: HostRuntime) -> Result<(), Fail> {
    let mut out = Vec::new(rt.alloc());
    ok_into(rt.alloc(), 12, &mut out)?;
    for denial in [
        Denial::TooLong,
        Denial::Line(LineRefusal::BadField(FieldName::EventEventId)),
        Denial::Input(Refusal::NotLocal),
        Denial::Input(Refusal::KnownEvent(3)),
        Denial::Input(Refusal::UnknownEvent),
        Denial::Input(Refusal::NotInThread),
        Denial::Input(Refusal::RuleReserved),
        Denial::Input(Refusal::BadRule(Part::RuleId)),
        Denial::Input(Refusal::BadRule(Part::Pattern)),
        Denial::Input(Refusal::BadRule(Part::Conditions)),
        Denial::Input(Refusal::BadRule(Part::Actions)),
        Denial::Input(Refusal::RuleUnknown),
        Denial::Input(Refusal::AnchorUnknown),
        Denial::Input(Refusal::RulesFull),
        Denial::Input(Refusal::Full),
    ] {
        denied_into(rt.alloc(), &denial, &mut out)?;
    }
    let expected = "= {\"ok\":12}\n\
        = {\"error\":\"LineTooLong\"}\n\
        = {\"error\":\"BadField\",\"field\":\"event.event_id\"}\n\
        = {\"error\":\"NotLocal\"}\n\
        = {\"error\":\"KnownEvent\",\"position\":3}\n\
        = {\"error\":\"UnknownEvent\"}\n\
        = {\"error\":\"NotInThread\"}\n\
        = {\"error\":\"RuleReserved\"}\n\
        = {\"error\":\"BadRule\",\"part\":\"rule_id\"}\n\
        = {\"error\":\"BadRule\",\"part\":\"pattern\"}\n\
        = {\"error\":\"BadRule\",\"part\":\"conditions\"}\n\
        = {\"error\":\"BadRule\",\"part\":\"actions\"}\n\
        = {\"error\":\"RuleUnknown\"}\n\
        = {\"error\":\"AnchorUnknown\"}\n\
        = {\"error\":\"RulesFull\",\"limit\":1000}\n\
        = {\"error\":\"Full\",\"limit\":1000000}\n";
    assert_eq!(rt; out.as_slice(), expected.as_bytes());
    Ok(())
}

const SERVER: &str = "example.org";

fn predefined_of(rt: &impl Abort, alloc: Global, owner: &str) -> Ruleset {
    let user = UserId::read(alloc, owner).expect(rt, owner);
    match user.localpart_on(SERVER) {
        Some(_) => predefined(alloc, &user, SERVER).expect(rt, owner),
        None => rt.panic(owner),
    }
}

fn rules_reply(rt: &impl Abort, alloc: Global, rules: &Ruleset) -> Vec<u8> {
    let mut out = Vec::new(alloc);
    rules_into(alloc, rules, &mut out).expect(rt, "a reply");
    out
}

/// Whether the reply with the predefined rules of this user has these ends.
fn is_between(rt: &impl Abort, alloc: Global, front: &str, back: &str) -> bool {
    let rules = predefined_of(rt, alloc, "@b:example.org");
    let reply = rules_reply(rt, alloc, &rules);
    reply.starts_with(front.as_bytes()) && reply.ends_with(back.as_bytes())
}

#[test]
fn the_predefined_rules_in_a_reply(rt: HostRuntime) {
    assert!(rt; is_between(&rt, rt.alloc(), FIRST_RULES, LAST_RULE));
}

/// The only content rule and the first override rule.
const FIRST_RULES: &str = "= {\"content\":[{\"actions\":[\"notify\",\
    {\"set_tweak\":\"sound\",\"value\":\"default\"},{\"set_tweak\":\"highlight\"}],\
    \"default\":true,\"enabled\":true,\"pattern\":\"b\",\
    \"rule_id\":\".m.rule.contains_user_name\"}],\
    \"override\":[{\"actions\":[],\"conditions\":[],\
    \"default\":true,\"enabled\":false,\"rule_id\":\".m.rule.master\"},{";

/// The last underride rule.
const LAST_RULE: &str = "},{\"actions\":[\"notify\"],\
    \"conditions\":[{\"key\":\"type\",\"kind\":\"event_match\",\"pattern\":\"m.room.encrypted\"}],\
    \"default\":true,\"enabled\":true,\"rule_id\":\".m.rule.encrypted\"}]}\n";
