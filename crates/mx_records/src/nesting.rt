//! How deep the object that stands for an input is nested.

ghost use Rattle.std.specs.Prelude.{◌≡◌, nat_le, ℕ, List};
ghost use Rattle.mx_records.specs.declared.entry.Entry.{Entry};
ghost use Rattle.mx_json.specs.Json.{depth_of};
ghost use Rattle.mx_records.specs.Entries.{payload_of};
ghost use Rattle.mx_records.specs.Normal.{edit_fields, fields_depth, normal_of};
ghost use Rattle.mx_records.specs.Refusing.{deepest_input, is_too_long};

use crate::input::Input;
use crate::refusal::{DEEPEST_INPUT, LONGEST_PAYLOAD};
use mx_json::{Json, JsonList, JsonObject};
use mx_rule::Edit;

/// Whether an input whose payload this is is too long to be kept: the payload has more than 262,144
/// bytes, or the object that stands for the input is nested deeper than 100.
#[tactic(auto, unfolding(crate::specs::Refusing::is_too_long))]
pub fn is_too_long(input: &Input, payload: &[u8]) -> bool
    requires { payload.now ≡ payload_of (Entry.Input input.now) }
    ensures { result ≡ is_too_long input.now }
{
    payload.len() > LONGEST_PAYLOAD || !is_within(input)
}

/// Whether the object that stands for an input is nested at most 100 deep.
fn is_within(input: &Input) -> bool
    ensures { result ≡ nat_le (depth_of (normal_of input.now)) deepest_input }
{
    match input {
        Input::Event(event) => nests_within(event.json(), DEEPEST_INPUT - 1),
        Input::Edit { edit, .. } => edit_is_within(edit),
        Input::Receipt { .. } => true,
        Input::Pusher(spec) => match &spec.http {
            Some(http) => object_nests_within(&http.details, DEEPEST_INPUT - 1),
            None => true,
        },
    }
}

/// Whether what an edit holds is nested at most 99 deep.
fn edit_is_within(edit: &Edit) -> bool
    ensures { (user : List ℕ) → result ≡ nat_le (fields_depth (edit_fields user edit.now)) 99 }
{
    match edit {
        Edit::Put {
            conditions,
            actions,
            ..
        } => {
            list_nests_within(actions, DEEPEST_INPUT - 1)
                && match conditions {
                    Some(conditions) => list_nests_within(conditions, DEEPEST_INPUT - 1),
                    None => true,
                }
        }
        Edit::SetActions { actions, .. } => list_nests_within(actions, DEEPEST_INPUT - 1),
        Edit::Delete { .. } => true,
        Edit::Enable { .. } => true,
    }
}

/// Whether a value is nested at most so deep.
#[cycle(within)]
fn nests_within(value: &Json, deepest: u32) -> bool
    ensures { result ≡ nat_le (depth_of value.now) deepest }
{
    match value {
        Json::List(list) => list_nests_within(list, deepest),
        Json::Object(object) => object_nests_within(object, deepest),
        _ => true,
    }
}

/// Whether a list is nested at most so deep.
#[cycle(within)]
fn list_nests_within(list: &JsonList, deepest: u32) -> bool
    ensures { result ≡ nat_le (depth_of (Json.List list.now)) deepest }
{
    if deepest == 0 {
        return false;
    }
    for item in list.items.as_slice() {
        if !nests_within(item, deepest - 1) {
            return false;
        }
    }
    true
}

/// Whether an object is nested at most so deep.
#[cycle(within)]
fn object_nests_within(object: &JsonObject, deepest: u32) -> bool
    ensures { result ≡ nat_le (depth_of (Json.Object object.now)) deepest }
{
    if deepest == 0 {
        return false;
    }
    for (_, member) in object.pairs.as_slice() {
        if !nests_within(member, deepest - 1) {
            return false;
        }
    }
    true
}
