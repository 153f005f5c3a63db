//! What an edit is tested for, part by part.

ghost use Rattle.std.specs.Prelude.{◌≡◌, true, None, Some, IfSome, MatchResult, length, position};
ghost use Rattle.std.specs.Prelude.{nat_lt};
ghost use Rattle.std.specs.List.{list_all, list_any};
ghost use Rattle.std.specs.Option.{option_copied};
ghost use Rattle.mx_json.specs.Ids.{holds_byte};
ghost use Rattle.mx_json.specs.Json.{is_valid};
ghost use Rattle.mx_edit.specs.Planning.{refusal_of_actions, refusal_of_id};
ghost use Rattle.mx_rule.specs.Editing.{are_actions, has_id, has_room, is_action, is_action_word};
ghost use Rattle.mx_rule.specs.Editing.{is_anchor, is_anchored, is_id_for, is_own_with};
ghost use Rattle.mx_rule.specs.Editing.{is_reserved, is_unfit, own_count, refusal_of_absence};
ghost use Rattle.mx_rule.specs.Editing.{refusal_of_place};
ghost use Rattle.mx_rule.specs.Ruleset.{are_rules_of, rules_of_kind};

use mx_json::{Json, JsonList, JsonText, is_room_id, is_user_id};
use mx_rule::{EditRefusal, Kind, Part, Rule, Ruleset};

// How many rules a user may have made.
const MOST_RULES: usize = 1000;

// How many actions a rule may have.
const MOST_ACTIONS: usize = 32;

pub(crate) fn is_reserved(id: &str) -> bool
    ensures { result ≡ is_reserved id.now }
{
    id.as_bytes().first() == Some(&b'.')
}

fn holds_byte(text: &str, byte: u8) -> bool
    ensures { result ≡ holds_byte byte text.now }
{
    text.as_bytes().iter().any(|each| *each == byte)
}

fn is_unfit(id: &str) -> bool
    ensures { result ≡ is_unfit id.now }
{
    is_reserved(id) || holds_byte(id, b'/') || holds_byte(id, b'\\')
}

fn is_id_for(kind: Kind, id: &str) -> bool
    ensures { result ≡ is_id_for kind id.now }
{
    match kind {
        Kind::Room => is_room_id(id),
        Kind::Sender => is_user_id(id),
        _ => true,
    }
}

/// Refuses an id that a rule of this kind can't have.
pub(crate) fn check_id(kind: Kind, id: &str) -> Result<(), EditRefusal>
    ensures { MatchResult result (λ _. refusal_of_id kind id.now ≡ None)
        (λ refusal. refusal_of_id kind id.now ≡ Some refusal) }
{
    if is_unfit(id) {
        return Err(EditRefusal::RuleReserved);
    }
    if !is_id_for(kind, id) {
        return Err(EditRefusal::BadRule(Part::RuleId));
    }
    Ok(())
}

fn is_action_word(word: &str) -> bool
    ensures { result ≡ is_action_word word.now }
{
    word == "notify" || word == "dont_notify" || word == "coalesce"
}

fn is_action(json: &Json) -> bool
    requires { is_valid json.now ≡ true }
    ensures { result ≡ is_action json.now }
{
    match json.as_text() {
        Some(word) => is_action_word(word),
        None => json.text_at("set_tweak").is_some(),
    }
}

#[tactic(auto, using(crate::proofs::StepLemmas::all_step))]
fn are_actions(given: &[Json]) -> bool
    requires { list_all is_valid given.now ≡ true }
    ensures { result ≡ list_all is_action given.now }
{
    for json in given {
        if !is_action(json) {
            return false;
        }
    }
    true
}

/// Refuses actions that no rule can have.
pub(crate) fn check_actions(given: &JsonList) -> Result<(), EditRefusal>
    requires { list_all is_valid given.now.items ≡ true }
    ensures { MatchResult result (λ _. refusal_of_actions given.now.items ≡ None)
        (λ refusal. refusal_of_actions given.now.items ≡ Some refusal) }
{
    if given.len() > MOST_ACTIONS || !are_actions(given.items.as_slice()) {
        return Err(EditRefusal::BadRule(Part::Actions));
    }
    Ok(())
}

/// The place of the rule with this id, which is to be there.
pub(crate) fn place_of(rules: &Ruleset, kind: Kind, id: &str) -> Result<usize, EditRefusal>
    ensures { MatchResult result
        (λ index. (refusal_of_absence kind id.now rules.now ≡ None)
        × (position (has_id id.now) (rules_of_kind kind rules.now) ≡ Some index)
        × (are_rules_of kind (rules_of_kind kind rules.now) ≡ true))
        (λ refusal. refusal_of_absence kind id.now rules.now ≡ Some refusal) }
{
    match rules.place_of(kind, id) {
        Some(index) => Ok(index),
        None => Err(EditRefusal::RuleUnknown),
    }
}

pub(crate) fn is_own_with(rule: &Rule, kind: Kind, id: &str) -> bool
    ensures { result ≡ is_own_with kind id.now rule.now }
{
    rule.is_own(kind) && rule.id() == id
}

pub(crate) fn has_own(rules: &[Rule], kind: Kind, id: &str) -> bool
    ensures { result ≡ list_any (is_own_with kind id.now) rules.now }
{
    rules.iter().any(|rule| is_own_with(rule, kind, id))
}

fn is_anchor(rules: &[Rule], kind: Kind, id: &str, anchor: &str) -> bool
    ensures { result ≡ is_anchor kind id.now rules.now anchor.now }
{
    anchor != id && has_own(rules, kind, anchor)
}

fn is_anchored(
    rules: &[Rule],
    kind: Kind,
    id: &str,
    before: &Option<JsonText>,
    after: &Option<JsonText>,
) -> bool
    ensures { result ≡ is_anchored kind id.now before.now after.now rules.now }
{
    match (before, after) {
        (Some(anchor), _) | (None, Some(anchor)) => is_anchor(rules, kind, id, anchor.as_str()),
        (None, None) => true,
    }
}

// Whether the user made fewer rules than a user may.
fn are_few(rules: &Ruleset) -> bool
    ensures { result ≡ nat_lt (own_count rules.now) 1000 }
{
    let mut left = MOST_RULES;
    for kind in Kind::BY_IMPORTANCE {
        let count = rules.own_count(kind);
        if left <= count {
            return false;
        }
        left -= count;
    }
    true
}

/// Refuses a rule that would stand beside none of the user's, or be one too many.
pub(crate) fn check_place(
    rules: &Ruleset,
    kind: Kind,
    id: &str,
    before: &Option<JsonText>,
    after: &Option<JsonText>,
) -> Result<(), EditRefusal>
    ensures { MatchResult result
        (λ _. refusal_of_place kind id.now before.now after.now rules.now ≡ None)
        (λ refusal. refusal_of_place kind id.now before.now after.now rules.now ≡ Some refusal) }
{
    let list = rules.rules(kind);
    if !is_anchored(list, kind, id, before, after) {
        return Err(EditRefusal::AnchorUnknown);
    }
    if !has_own(list, kind, id) && !are_few(rules) {
        return Err(EditRefusal::RulesFull);
    }
    Ok(())
}
