//! What a JSON value wants as a condition, kind by kind.

ghost use Rattle.std.specs.Prelude.{◌≡◌, true, codes, option_map, Some};
ghost use Rattle.mx_json.specs.Gives.{Gives};
ghost use Rattle.mx_json.specs.Json.{is_valid, text_at};
ghost use Rattle.mx_cond.specs.Condition.{or_bad, path_in, pattern_in, value_in, wanted_by};
ghost use Rattle.mx_cond.specs.Condition.{wanted_of_kind, with_both};
ghost use Rattle.mx_cond.specs.MemberCount.{count_asked};
ghost use Rattle.mx_cond.specs.declared.wanted.Wanted.TheVariants.{EventMatch};
ghost use Rattle.mx_cond.specs.declared.wanted.Wanted.TheVariants.{EventPropertyContains};
ghost use Rattle.mx_cond.specs.declared.wanted.Wanted.TheVariants.{EventPropertyIs};
ghost use Rattle.mx_cond.specs.declared.wanted.Wanted.TheVariants.{RoomMemberCount};
ghost use Rattle.mx_cond.specs.declared.wanted.Wanted.TheVariants.{SenderNotificationPermission};

use crate::count::count_asked;
use crate::error::ConditionError;
use crate::plain::Plain;
use crate::property_path::PropertyPath;
use crate::text_pattern::TextPattern;
use crate::wanted::Wanted;
use mx_glob::{Glob, GlobError};
use mx_json::{Json, JsonText, Path};
use std::alloc::Global;

/// What a valid value wants as a condition.
#[tactic(auto, unfolding(crate::specs::Condition::wanted_by))]
pub fn wanted_by(alloc: Global, json: &Json) -> Result<Wanted, ConditionError>
    requires { is_valid json.now ≡ true }
    ensures { Gives ConditionError.OutOfMemory result (or_bad (wanted_by json.now)) }
{
    match json.text_at("kind") {
        Some(kind) => wanted_of_kind(alloc, kind, json),
        None => Err(ConditionError::BadCondition),
    }
}

#[tactic(auto, unfolding(crate::specs::Condition::wanted_of_kind))]
fn wanted_of_kind(alloc: Global, kind: &str, json: &Json) -> Result<Wanted, ConditionError>
    requires { is_valid json.now ≡ true }
    ensures { Gives ConditionError.OutOfMemory result (or_bad (wanted_of_kind kind.now json.now)) }
{
    match kind {
        "event_match" => event_match(alloc, json),
        "event_property_is" => event_property_is(alloc, json),
        "event_property_contains" => event_property_contains(alloc, json),
        "room_member_count" => room_member_count(json),
        "sender_notification_permission" => sender_notification_permission(alloc, json),
        "contains_display_name" => Ok(Wanted::ContainsDisplayName),
        _ => Ok(Wanted::Unknown),
    }
}

fn event_match(alloc: Global, json: &Json) -> Result<Wanted, ConditionError>
    requires { is_valid json.now ≡ true }
    ensures { Gives ConditionError.OutOfMemory result
        (or_bad (with_both EventMatch (path_in json.now) (pattern_in json.now))) }
{
    let path = path_in(alloc, json)?;
    let pattern = pattern_in(alloc, json)?;
    Ok(Wanted::EventMatch(path, pattern))
}

fn event_property_is(alloc: Global, json: &Json) -> Result<Wanted, ConditionError>
    requires { is_valid json.now ≡ true }
    ensures { Gives ConditionError.OutOfMemory result
        (or_bad (with_both EventPropertyIs (path_in json.now) (value_in json.now))) }
{
    let path = path_in(alloc, json)?;
    let value = value_in(alloc, json)?;
    Ok(Wanted::EventPropertyIs(path, value))
}

fn event_property_contains(alloc: Global, json: &Json) -> Result<Wanted, ConditionError>
    requires { is_valid json.now ≡ true }
    ensures { Gives ConditionError.OutOfMemory result
        (or_bad (with_both EventPropertyContains (path_in json.now) (value_in json.now))) }
{
    let path = path_in(alloc, json)?;
    let value = value_in(alloc, json)?;
    Ok(Wanted::EventPropertyContains(path, value))
}

fn room_member_count(json: &Json) -> Result<Wanted, ConditionError>
    requires { is_valid json.now ≡ true }
    ensures { Gives ConditionError.OutOfMemory result
        (or_bad
        (option_map (λ is. RoomMemberCount (count_asked is)) (text_at (codes "is") json.now))) }
{
    match json.text_at("is") {
        Some(is) => Ok(Wanted::RoomMemberCount(count_asked(is))),
        None => Err(ConditionError::BadCondition),
    }
}

fn sender_notification_permission(alloc: Global, json: &Json) -> Result<Wanted, ConditionError>
    requires { is_valid json.now ≡ true }
    ensures { Gives ConditionError.OutOfMemory result
        (or_bad
        (option_map (λ key. SenderNotificationPermission key) (text_at (codes "key") json.now))) }
{
    match json.text_at("key") {
        Some(key) => Ok(Wanted::SenderNotificationPermission(JsonText::read(alloc, key)?)),
        None => Err(ConditionError::BadCondition),
    }
}

fn path_in(alloc: Global, json: &Json) -> Result<PropertyPath, ConditionError>
    requires { is_valid json.now ≡ true }
    ensures { Gives ConditionError.OutOfMemory result (or_bad (path_in json.now)) }
{
    match json.text_at("key") {
        Some(key) => Ok(PropertyPath::new(Path::read(alloc, key)?)),
        None => Err(ConditionError::BadCondition),
    }
}

fn pattern_in(alloc: Global, json: &Json) -> Result<TextPattern, ConditionError>
    requires { is_valid json.now ≡ true }
    ensures { Gives ConditionError.OutOfMemory result (or_bad (pattern_in json.now)) }
{
    let Some(pattern) = json.text_at("pattern") else {
        return Err(ConditionError::BadCondition);
    };
    match Glob::read(alloc, pattern) {
        Ok(glob) => Ok(TextPattern::new(alloc, glob, pattern)?),
        Err(GlobError::PatternTooLong) => Err(ConditionError::BadCondition),
        Err(GlobError::OutOfMemory) => Err(ConditionError::OutOfMemory),
    }
}

fn value_in(alloc: Global, json: &Json) -> Result<Plain, ConditionError>
    requires { is_valid json.now ≡ true }
    ensures { Gives ConditionError.OutOfMemory result (or_bad (value_in json.now)) }
{
    match json.member("value") {
        Some(value) => Plain::read(alloc, value),
        None => Err(ConditionError::BadCondition),
    }
}
