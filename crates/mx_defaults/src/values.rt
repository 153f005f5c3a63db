//! The JSON of the table's conditions and actions.

ghost use Rattle.std.specs.Prelude.{◌≡◌, true, map, IfOk};
ghost use Rattle.mx_json.specs.declared.value.Json.{Text, Truth, Object};
ghost use Rattle.mx_rule.specs.Predefined.{event_property_is};
ghost use Rattle.mx_defaults.specs.Row.{action_done, actions_of, condition_of};

use crate::row::{Asked, Does};
use mx_json::{Json, JsonList, JsonObject, JsonText, OutOfMemory};
use sqlite_items::Items;
use std::alloc::Global;

/// A condition of the table, for this owner.
pub fn condition_of(alloc: Global, owner: &str, asked: &Asked) -> Result<Json, OutOfMemory>
    ensures { IfOk result (λ json. json ≡ condition_of owner.now asked.now) }
{
    match *asked {
        Asked::Matches(key, pattern) => texts(
            alloc,
            &[("key", key), ("kind", "event_match"), ("pattern", pattern)],
        ),
        Asked::MatchesOwner(key) => texts(
            alloc,
            &[("key", key), ("kind", "event_match"), ("pattern", owner)],
        ),
        Asked::ContainsOwner(key) => texts(
            alloc,
            &[
                ("key", key),
                ("kind", "event_property_contains"),
                ("value", owner),
            ],
        ),
        Asked::IsText(key, value) => texts(
            alloc,
            &[
                ("key", key),
                ("kind", "event_property_is"),
                ("value", value),
            ],
        ),
        Asked::IsTrue(key) => property_is_true(alloc, key),
        Asked::Members(number) => texts(alloc, &[("is", number), ("kind", "room_member_count")]),
        Asked::MayNotifyRoom => texts(
            alloc,
            &[("key", "room"), ("kind", "sender_notification_permission")],
        ),
        Asked::NamesOwner => texts(alloc, &[("kind", "contains_display_name")]),
    }
}

/// The actions that a rule of the table has.
pub fn actions_of(alloc: Global, does: &[Does]) -> Result<JsonList, OutOfMemory>
    ensures { IfOk result (λ list. list.items ≡ actions_of does.now) }
{
    let mut actions = Vec::with_capacity(alloc, does.len())?;
    for each in does {
        actions.push(action_done(alloc, each)?)?;
    }
    Ok(JsonList {
        items: Items::from_vec(actions),
    })
}

fn action_done(alloc: Global, does: &Does) -> Result<Json, OutOfMemory>
    ensures { IfOk result (λ json. json ≡ action_done does.now) }
{
    match *does {
        Does::Notify => text(alloc, "notify"),
        Does::Sound(name) => texts(alloc, &[("set_tweak", "sound"), ("value", name)]),
        Does::Highlight => texts(alloc, &[("set_tweak", "highlight")]),
    }
}

fn text(alloc: Global, text: &str) -> Result<Json, OutOfMemory>
    ensures { IfOk result (λ json. json ≡ Text text.now) }
{
    Ok(Json::Text(JsonText::read(alloc, text)?))
}

fn property_is_true(alloc: Global, key: &str) -> Result<Json, OutOfMemory>
    ensures { IfOk result (λ json. json ≡ event_property_is key.now (Truth true)) }
{
    let object = object_of(alloc, &[("key", key), ("kind", "event_property_is")])?;
    Ok(Json::Object(object.with(alloc, "value", Json::Truth(true))?))
}

// A value that is an object of texts.
fn texts(alloc: Global, members: &[(&str, &str)]) -> Result<Json, OutOfMemory>
    ensures { IfOk result (λ json. json
        ≡ Object record { pairs = map (λ member. (member.0.now, Text member.1.now)) members.now }) }
{
    Ok(Json::Object(object_of(alloc, members)?))
}

// An object whose members are texts.
fn object_of(alloc: Global, members: &[(&str, &str)]) -> Result<JsonObject, OutOfMemory>
    ensures { IfOk result
        (λ object. object.pairs ≡ map (λ member. (member.0.now, Text member.1.now)) members.now) }
{
    let mut pairs = Vec::with_capacity(alloc, members.len())?;
    for (key, value) in members {
        pairs.push((JsonText::read(alloc, key)?, text(alloc, value)?))?;
    }
    Ok(JsonObject {
        pairs: Items::from_vec(pairs),
    })
}
