ghost use Rattle.std.specs.Prelude.{◌≡◌, IfOk};
ghost use Rattle.mx_cond.specs.Facts.{told_by};
ghost use Rattle.mx_rule.specs.Judged.{invites, is_judged, judged, IsJudged, IsVerdict};
ghost use Rattle.mx_rule.specs.Ruleset.{flat};
ghost use Rattle.mx_room.specs.Facts.{facts_of};
ghost use Rattle.mx_room.specs.Members.{membership_at};

use mx_cond::Facts;
use mx_event::Event;
use mx_glob::Scratch;
use mx_json::{OutOfMemory, UserId};
use mx_room::RoomView;
use mx_rule::{Ruleset, Verdict};
use std::alloc::Global;

/// What is said of an event for the owner of these rules, in a room of this state after the event;
/// `None` exactly where the event isn't judged for the owner: who isn't local on this server, or
/// sent the event, or is neither joined after it nor invited by it. It takes memory only to fold
/// texts and to keep a sound.
///
/// # Errors
///
/// `OutOfMemory` where the allocator has none.
pub fn judge(
    alloc: Global,
    event: &Event,
    owner: &UserId,
    server: &str,
    rules: &Ruleset,
    view: &RoomView,
    scratch: &mut Scratch,
) -> Result<Option<Verdict>, OutOfMemory>
    ensures meaning { IfOk result (IsJudged server.now owner.now (membership_at view.now owner.now)
        rules.now (facts_of event.now owner.now view.now)) }
    ensures exact { IfOk result (λ answer. answer
        ≡ judged server.now owner.now (membership_at view.now owner.now) rules.now
        (facts_of event.now owner.now view.now)) }
{
    if !is_judged(event, owner, server, view) {
        return Ok(None);
    }
    let facts = facts_of(event, owner, view);
    let verdict = verdict_by(alloc, rules, &facts, scratch)?;
    Ok(Some(verdict))
}

// Whether the event is judged for the owner.
fn is_judged(event: &Event, owner: &UserId, server: &str, view: &RoomView) -> bool
    ensures { result
        ≡ is_judged server.now owner.now (membership_at view.now owner.now) event.now }
{
    owner.localpart_on(server).is_some()
        && event.sender().as_text() != owner.as_text()
        && (view.membership(owner.as_text()) == "join" || invites(event, owner.as_text()))
}

// Whether the event is an invitation of this user.
fn invites(event: &Event, user: &str) -> bool
    ensures { result ≡ invites event.now user.now }
{
    match event.membership() {
        Some((named, membership)) => named == user && membership == "invite",
        None => false,
    }
}

// What is known of the event and its room for the owner.
fn facts_of<'a>(event: &'a Event, owner: &UserId, view: &'a RoomView) -> Facts<'a>
    ensures { told_by result ≡ facts_of event.now owner.now view.now }
{
    Facts {
        event,
        owner_name: view.name_of(owner.as_text()),
        joined: view.joined(),
        sender_power: view.power(event.sender().as_text()),
        powers: view.powers(),
    }
}

// What is said of the event by the first rule that is enabled and matches.
fn verdict_by(
    alloc: Global,
    rules: &Ruleset,
    facts: &Facts,
    scratch: &mut Scratch,
) -> Result<Verdict, OutOfMemory>
    ensures { IfOk result (IsVerdict (told_by facts.now) (flat rules.now)) }
{
    let Some(place) = rules.decide(alloc, facts, scratch)? else {
        return Verdict::by(alloc, &[]);
    };
    match rules.rule_at(&place) {
        Some(rule) => rule.verdict(alloc),
        None => unreachable!(),
    }
}
