//! The inputs that edit a user's push rules, read from the object of their command.

ghost use Rattle.std.specs.Prelude.{◌≡◌, true, IfOk};
ghost use Rattle.std.specs.List.{list_all};
ghost use Rattle.mx_json.specs.Gives.{Gives};
ghost use Rattle.mx_json.specs.Ids.{is_user_id};
ghost use Rattle.mx_json.specs.Json.{is_valid, text_at};
ghost use Rattle.mx_rule.specs.Editing.{given_items};
ghost use Rattle.mx_records.specs.Forms.{actions_field, actions_in, anchors_form, checked};
ghost use Rattle.mx_records.specs.Forms.{given_list, has_list_or_none, has_text_or_none};
ghost use Rattle.mx_records.specs.Forms.{is_rule_id, kind_in, kind_named, rule_id_in, user_in};
ghost use Rattle.mx_records.specs.Forms.{value_of_form};
ghost use Rattle.mx_records.specs.Forms.{delete_form, enable_form, put_form, rule_form};
ghost use Rattle.mx_records.specs.Forms.{set_actions_form};
ghost use Rattle.mx_records.specs.Rules.{is_valid_input};

use crate::field_name::FieldName;
use crate::input::Input;
use crate::input_error::InputError;
use mx_json::{IdError, Json, JsonList, JsonText, UserId};
use mx_rule::{Edit, Kind};
use std::alloc::Global;

/// How many bytes a rule's id may have.
const LONGEST_RULE_ID: usize = 512;

/// The input of an object whose word is `rule_put`.
pub(crate) fn read_put(alloc: Global, json: &Json) -> Result<Input, InputError>
    requires { is_valid json.now ≡ true }
    ensures input { Gives InputError.OutOfMemory result
        (value_of_form InputError.BadField (put_form json.now)) }
    ensures valid { IfOk result (λ input. is_valid_input input ≡ true) }
{
    let (user, kind, rule_id) = read_rule(alloc, json)?;
    let actions = read_actions(alloc, json)?;
    let conditions = list_or_none(alloc, json, "conditions", FieldName::Conditions)?;
    let pattern = text_or_none(alloc, json, "pattern", FieldName::Pattern)?;
    let (before, after) = read_anchors(alloc, json)?;
    Ok(Input::Edit {
        user,
        edit: Edit::Put {
            kind,
            rule_id,
            pattern,
            conditions,
            actions,
            before,
            after,
        },
    })
}

/// The input of an object whose word is `rule_delete`.
pub(crate) fn read_delete(alloc: Global, json: &Json) -> Result<Input, InputError>
    requires { is_valid json.now ≡ true }
    ensures input { Gives InputError.OutOfMemory result
        (value_of_form InputError.BadField (delete_form json.now)) }
    ensures valid { IfOk result (λ input. is_valid_input input ≡ true) }
{
    let (user, kind, rule_id) = read_rule(alloc, json)?;
    Ok(Input::Edit {
        user,
        edit: Edit::Delete { kind, rule_id },
    })
}

/// The input of an object whose word is `rule_enable`.
pub(crate) fn read_enable(alloc: Global, json: &Json) -> Result<Input, InputError>
    requires { is_valid json.now ≡ true }
    ensures input { Gives InputError.OutOfMemory result
        (value_of_form InputError.BadField (enable_form json.now)) }
    ensures valid { IfOk result (λ input. is_valid_input input ≡ true) }
{
    let (user, kind, rule_id) = read_rule(alloc, json)?;
    let Some(enabled) = json.truth_at("enabled") else {
        return Err(InputError::BadField(FieldName::Enabled));
    };
    Ok(Input::Edit {
        user,
        edit: Edit::Enable {
            kind,
            rule_id,
            enabled,
        },
    })
}

/// The input of an object whose word is `rule_actions`.
pub(crate) fn read_set_actions(alloc: Global, json: &Json) -> Result<Input, InputError>
    requires { is_valid json.now ≡ true }
    ensures input { Gives InputError.OutOfMemory result
        (value_of_form InputError.BadField (set_actions_form json.now)) }
    ensures valid { IfOk result (λ input. is_valid_input input ≡ true) }
{
    let (user, kind, rule_id) = read_rule(alloc, json)?;
    let actions = read_actions(alloc, json)?;
    Ok(Input::Edit {
        user,
        edit: Edit::SetActions {
            kind,
            rule_id,
            actions,
        },
    })
}

/// Whose rule is edited, of which kind, and which one.
fn read_rule(alloc: Global, json: &Json) -> Result<(UserId, Kind, JsonText), InputError>
    requires { is_valid json.now ≡ true }
    ensures { Gives InputError.OutOfMemory result
        (value_of_form InputError.BadField (rule_form json.now)) }
{
    let user = read_user(alloc, json)?;
    let Some(kind) = read_kind(json) else {
        return Err(InputError::BadField(FieldName::Kind));
    };
    let rule_id = read_rule_id(alloc, json)?;
    Ok((user, kind, rule_id))
}

/// The user that stands under `user`.
pub(crate) fn read_user(alloc: Global, json: &Json) -> Result<UserId, InputError>
    requires { is_valid json.now ≡ true }
    ensures { Gives InputError.OutOfMemory result
        (checked FieldName.User (is_user_id (user_in json.now)) (user_in json.now)) }
{
    match UserId::read(alloc, json.text_or_empty("user")) {
        Ok(user) => Ok(user),
        Err(IdError::BadId) => Err(InputError::BadField(FieldName::User)),
        Err(IdError::OutOfMemory) => Err(InputError::OutOfMemory),
    }
}

/// The kind of the rule that is edited.
fn read_kind(json: &Json) -> Option<Kind>
    requires { is_valid json.now ≡ true }
    ensures { result ≡ kind_in json.now }
{
    kind_named(json.text_at("kind")?)
}

/// The kind that a text names.
#[tactic(auto, unfolding(crate::specs::Forms::kind_named))]
fn kind_named(text: &str) -> Option<Kind>
    ensures { result ≡ kind_named text.now }
{
    match text {
        "override" => Some(Kind::Override),
        "content" => Some(Kind::Content),
        "room" => Some(Kind::Room),
        "sender" => Some(Kind::Sender),
        "underride" => Some(Kind::Underride),
        _ => None,
    }
}

/// The id of the rule that is edited.
fn read_rule_id(alloc: Global, json: &Json) -> Result<JsonText, InputError>
    requires { is_valid json.now ≡ true }
    ensures { Gives InputError.OutOfMemory result
        (checked FieldName.RuleId (is_rule_id (rule_id_in json.now)) (rule_id_in json.now)) }
{
    let rule_id = json.text_or_empty("rule_id");
    if !is_rule_id(rule_id) {
        return Err(InputError::BadField(FieldName::RuleId));
    }
    Ok(JsonText::read(alloc, rule_id)?)
}

/// Whether a text is as long as a rule's id may be.
fn is_rule_id(text: &str) -> bool
    ensures { result ≡ is_rule_id text.now }
{
    1 <= text.len() && text.len() <= LONGEST_RULE_ID
}

/// The actions that the rule is to have.
fn read_actions(alloc: Global, json: &Json) -> Result<JsonList, InputError>
    requires { is_valid json.now ≡ true }
    ensures actions { Gives InputError.OutOfMemory result
        (checked FieldName.Actions (actions_field json.now).1 (actions_in json.now)) }
    ensures valid { IfOk result (λ actions. list_all is_valid actions.items ≡ true) }
{
    let Some(actions) = json.list_at("actions") else {
        return Err(InputError::BadField(FieldName::Actions));
    };
    Ok(actions.copied(alloc)?)
}

/// The rules beside which the rule is to stand: `before` and `after`.
fn read_anchors(
    alloc: Global,
    json: &Json,
) -> Result<(Option<JsonText>, Option<JsonText>), InputError>
    requires { is_valid json.now ≡ true }
    ensures { Gives InputError.OutOfMemory result
        (value_of_form InputError.BadField (anchors_form json.now)) }
{
    let before = text_or_none(alloc, json, "before", FieldName::Before)?;
    let after = text_or_none(alloc, json, "after", FieldName::After)?;
    Ok((before, after))
}

/// The list under a key, if anything stands there.
fn list_or_none(
    alloc: Global,
    json: &Json,
    key: &str,
    field: FieldName,
) -> Result<Option<JsonList>, InputError>
    requires { is_valid json.now ≡ true }
    ensures list { Gives InputError.OutOfMemory result
        (checked field (has_list_or_none key.now json.now) (given_list key.now json.now)) }
    ensures valid { IfOk result (λ given. list_all is_valid (given_items given) ≡ true) }
{
    match json.member(key) {
        None => Ok(None),
        Some(Json::List(list)) => Ok(Some(list.copied(alloc)?)),
        Some(_) => Err(InputError::BadField(field)),
    }
}

/// The text under a key, if anything stands there.
pub(crate) fn text_or_none(
    alloc: Global,
    json: &Json,
    key: &str,
    field: FieldName,
) -> Result<Option<JsonText>, InputError>
    requires { is_valid json.now ≡ true }
    ensures { Gives InputError.OutOfMemory result
        (checked field (has_text_or_none key.now json.now) (text_at key.now json.now)) }
{
    match json.member(key) {
        None => Ok(None),
        Some(Json::Text(text)) => Ok(Some(text.copied(alloc)?)),
        Some(_) => Err(InputError::BadField(field)),
    }
}
