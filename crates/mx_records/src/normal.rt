//! The object that stands for an input that is no event, made of copies.

ghost use Rattle.std.specs.Prelude.{◌≡◌, ◌<◌, ◌^◌, ◌++◌, [], ◌∷◌, codes, option_map, pos, None};
ghost use Rattle.std.specs.Prelude.{Some, IfOk, IfSome};
ghost use Rattle.mx_records.specs.Normal.{given_pairs, kind_text, list_field, list_if_given};
ghost use Rattle.mx_records.specs.Normal.{normal_of, object_of, privacy_text, pusher_fields};
ghost use Rattle.mx_records.specs.Normal.{text_field, text_if_given, thread_text, truth_if_given};

use crate::input::Input;
use crate::pusher_spec::{HttpPusher, PusherSpec};
use mx_json::{EventId, Json, JsonList, JsonObject, JsonText, OutOfMemory, RoomId, UserId};
use mx_rows::ThreadKey;
use mx_rule::{Edit, Kind};
use std::alloc::Global;

// ---- objects, field by field

/// The object with a value behind its other members.
fn with_value(
    object: JsonObject,
    alloc: Global,
    key: &str,
    value: Json,
) -> Result<JsonObject, OutOfMemory>
    ensures { IfOk result
        (λ more. more.pairs ≡ object.pairs ++ given_pairs ((key.now, Some value) ∷ [])) }
{
    object.with(alloc, key, value)
}

/// The object with a text behind its other members.
fn with_text(
    object: JsonObject,
    alloc: Global,
    key: &str,
    text: &str,
) -> Result<JsonObject, OutOfMemory>
    ensures { IfOk result
        (λ more. more.pairs ≡ object.pairs ++ given_pairs (text_field key.now text.now ∷ [])) }
{
    object.with(alloc, key, Json::Text(JsonText::read(alloc, text)?))
}

/// The object with a text behind its other members, if it is given.
fn with_text_if_given(
    object: JsonObject,
    alloc: Global,
    key: &str,
    text: &Option<JsonText>,
) -> Result<JsonObject, OutOfMemory>
    ensures { IfOk result
        (λ more. more.pairs ≡ object.pairs ++ given_pairs (text_if_given key.now text.now ∷ [])) }
{
    match text {
        Some(text) => with_text(object, alloc, key, text.as_str()),
        None => Ok(object),
    }
}

/// The object with a list behind its other members.
fn with_list(
    object: JsonObject,
    alloc: Global,
    key: &str,
    list: &JsonList,
) -> Result<JsonObject, OutOfMemory>
    ensures { IfOk result
        (λ more. more.pairs ≡ object.pairs ++ given_pairs (list_field key.now list.now ∷ [])) }
{
    object.with(alloc, key, Json::List(list.copied(alloc)?))
}

/// The object with a list behind its other members, if it is given.
fn with_list_if_given(
    object: JsonObject,
    alloc: Global,
    key: &str,
    list: &Option<JsonList>,
) -> Result<JsonObject, OutOfMemory>
    ensures { IfOk result
        (λ more. more.pairs ≡ object.pairs ++ given_pairs (list_if_given key.now list.now ∷ [])) }
{
    match list {
        Some(list) => with_list(object, alloc, key, list),
        None => Ok(object),
    }
}

/// The object with a truth value behind its other members.
fn with_truth(
    object: JsonObject,
    alloc: Global,
    key: &str,
    truth: bool,
) -> Result<JsonObject, OutOfMemory>
    ensures { IfOk result
        (λ more. more.pairs
        ≡ object.pairs ++ given_pairs ((key.now, Some (Json.Truth truth)) ∷ [])) }
{
    object.with(alloc, key, Json::Truth(truth))
}

/// The object with a number behind its other members.
fn with_number(
    object: JsonObject,
    alloc: Global,
    key: &str,
    number: u64,
) -> Result<JsonObject, OutOfMemory>
    requires { number < 2 ^ 63 }
    ensures { IfOk result
        (λ more. more.pairs
        ≡ object.pairs ++ given_pairs ((key.now, Some (Json.Whole (pos number))) ∷ [])) }
{
    object.with(alloc, key, Json::Whole(number as i64))
}

/// The object with a truth value behind its other members, if it is given.
fn with_truth_if_given(
    object: JsonObject,
    alloc: Global,
    key: &str,
    truth: Option<bool>,
) -> Result<JsonObject, OutOfMemory>
    ensures { IfOk result
        (λ more. more.pairs ≡ object.pairs ++ given_pairs (truth_if_given key.now truth ∷ [])) }
{
    match truth {
        Some(truth) => with_truth(object, alloc, key, truth),
        None => Ok(object),
    }
}

// ---- edits

/// The object that stands for an edit of a user's rules.
pub(crate) fn edit_value(alloc: Global, user: &UserId, edit: &Edit) -> Result<Json, OutOfMemory>
    ensures { IfOk result (λ json. json ≡ normal_of (Input.Edit user.now edit.now)) }
{
    match edit {
        Edit::Put {
            kind,
            rule_id,
            pattern,
            conditions,
            actions,
            before,
            after,
        } => {
            let object = put_begun(alloc, actions, after, before)?;
            put_value(object, alloc, conditions, kind, pattern, rule_id, user)
        }
        Edit::Delete { kind, rule_id } => delete_value(alloc, kind, rule_id, user),
        Edit::Enable {
            kind,
            rule_id,
            enabled,
        } => enable_value(alloc, *enabled, kind, rule_id, user),
        Edit::SetActions {
            kind,
            rule_id,
            actions,
        } => actions_value(alloc, actions, kind, rule_id, user),
    }
}

/// The first fields of `rule_put`.
fn put_begun(
    alloc: Global,
    actions: &JsonList,
    after: &Option<JsonText>,
    before: &Option<JsonText>,
) -> Result<JsonObject, OutOfMemory>
    ensures { IfOk result (λ object. object.pairs ≡ given_pairs
        (list_field (codes "actions") actions.now ∷ text_if_given (codes "after") after.now
        ∷ text_if_given (codes "before") before.now
        ∷ text_field (codes "cmd") (codes "rule_put") ∷ [])) }
{
    let object = with_list(JsonObject::new(alloc), alloc, "actions", actions)?;
    let object = with_text_if_given(object, alloc, "after", after)?;
    let object = with_text_if_given(object, alloc, "before", before)?;
    with_text(object, alloc, "cmd", "rule_put")
}

/// The object that stands for `rule_put`, from its first fields.
fn put_value(
    begun: JsonObject,
    alloc: Global,
    conditions: &Option<JsonList>,
    kind: &Kind,
    pattern: &Option<JsonText>,
    rule_id: &JsonText,
    user: &UserId,
) -> Result<Json, OutOfMemory>
    ensures { IfOk result (λ json. json ≡ Json.Object (record {
      pairs = begun.pairs ++ given_pairs
          (list_if_given (codes "conditions") conditions.now
          ∷ text_field (codes "kind") (kind_text kind.now)
          ∷ text_if_given (codes "pattern") pattern.now ∷ text_field (codes "rule_id") rule_id.now
          ∷ text_field (codes "user") user.now ∷ []);
    })) }
{
    let object = with_list_if_given(begun, alloc, "conditions", conditions)?;
    let object = with_text(object, alloc, "kind", kind_text(kind))?;
    let object = with_text_if_given(object, alloc, "pattern", pattern)?;
    with_rule(object, alloc, rule_id, user)
}

/// The object that stands for `rule_delete`.
fn delete_value(
    alloc: Global,
    kind: &Kind,
    rule_id: &JsonText,
    user: &UserId,
) -> Result<Json, OutOfMemory>
    ensures { IfOk result (λ json. json
        ≡ normal_of (Input.Edit user.now (Edit.Delete kind.now rule_id.now))) }
{
    let object = with_text(JsonObject::new(alloc), alloc, "cmd", "rule_delete")?;
    let object = with_text(object, alloc, "kind", kind_text(kind))?;
    with_rule(object, alloc, rule_id, user)
}

/// The object that stands for `rule_enable`.
fn enable_value(
    alloc: Global,
    enabled: bool,
    kind: &Kind,
    rule_id: &JsonText,
    user: &UserId,
) -> Result<Json, OutOfMemory>
    ensures { IfOk result (λ json. json
        ≡ normal_of (Input.Edit user.now (Edit.Enable kind.now rule_id.now enabled))) }
{
    let object = with_text(JsonObject::new(alloc), alloc, "cmd", "rule_enable")?;
    let object = with_truth(object, alloc, "enabled", enabled)?;
    let object = with_text(object, alloc, "kind", kind_text(kind))?;
    with_rule(object, alloc, rule_id, user)
}

/// The object that stands for `rule_actions`.
fn actions_value(
    alloc: Global,
    actions: &JsonList,
    kind: &Kind,
    rule_id: &JsonText,
    user: &UserId,
) -> Result<Json, OutOfMemory>
    ensures { IfOk result (λ json. json
        ≡ normal_of (Input.Edit user.now (Edit.SetActions kind.now rule_id.now actions.now))) }
{
    let object = with_list(JsonObject::new(alloc), alloc, "actions", actions)?;
    let object = with_text(object, alloc, "cmd", "rule_actions")?;
    let object = with_text(object, alloc, "kind", kind_text(kind))?;
    with_rule(object, alloc, rule_id, user)
}

/// The object of an edit, with its last two fields: the rule that is edited, and whose it is.
fn with_rule(
    begun: JsonObject,
    alloc: Global,
    rule_id: &JsonText,
    user: &UserId,
) -> Result<Json, OutOfMemory>
    ensures { IfOk result (λ json. json ≡ Json.Object (record {
      pairs = begun.pairs ++ given_pairs
          (text_field (codes "rule_id") rule_id.now ∷ text_field (codes "user") user.now ∷ []);
    })) }
{
    let object = with_text(begun, alloc, "rule_id", rule_id.as_str())?;
    let object = with_text(object, alloc, "user", user.as_text())?;
    Ok(Json::Object(object))
}

/// The word of a kind of rules.
fn kind_text(kind: &Kind) -> &'static str
    ensures { result.now ≡ kind_text kind.now }
{
    match kind {
        Kind::Override => "override",
        Kind::Content => "content",
        Kind::Room => "room",
        Kind::Sender => "sender",
        Kind::Underride => "underride",
    }
}

// ---- receipts

/// The object that stands for a receipt.
pub(crate) fn receipt_value(
    alloc: Global,
    user: &UserId,
    room: &RoomId,
    event: &EventId,
    private: bool,
    thread: &Option<ThreadKey>,
) -> Result<Json, OutOfMemory>
    ensures { IfOk result (λ json. json
        ≡ normal_of (Input.Receipt user.now room.now event.now private thread.now)) }
{
    let object = with_text(JsonObject::new(alloc), alloc, "cmd", "receipt")?;
    let object = with_text(object, alloc, "event_id", event.as_text())?;
    let object = with_text(object, alloc, "room_id", room.as_text())?;
    let object = with_thread_if_given(object, alloc, thread)?;
    let object = with_text(object, alloc, "type", privacy_text(private))?;
    let object = with_text(object, alloc, "user", user.as_text())?;
    Ok(Json::Object(object))
}

/// The object of a receipt with the thread that was read, if one is named.
fn with_thread_if_given(
    object: JsonObject,
    alloc: Global,
    thread: &Option<ThreadKey>,
) -> Result<JsonObject, OutOfMemory>
    ensures { IfOk result (λ more. more.pairs ≡ object.pairs
        ++ given_pairs
        (text_if_given (codes "thread_id") (option_map thread_text thread.now) ∷ [])) }
{
    match thread {
        Some(thread) => with_text(object, alloc, "thread_id", thread_text(thread)),
        None => Ok(object),
    }
}

/// A thread as a receipt names it.
fn thread_text(thread: &ThreadKey) -> &str
    ensures { result.now ≡ thread_text thread.now }
{
    match thread {
        ThreadKey::Main => "main",
        ThreadKey::Root(root) => root.as_text(),
    }
}

/// The type of a receipt.
fn privacy_text(private: bool) -> &'static str
    ensures { result.now ≡ privacy_text private }
{
    if private { "m.read.private" } else { "m.read" }
}

// ---- pushers

/// The object that stands for a setting of a pusher.
pub(crate) fn pusher_value(alloc: Global, spec: &PusherSpec) -> Result<Json, OutOfMemory>
    requires { IfSome spec.now.http (λ http. http.ts < 2 ^ 63) }
    ensures { IfOk result (λ json. json ≡ normal_of (Input.Pusher spec.now)) }
{
    match &spec.http {
        Some(http) => {
            let object = http_begun(alloc, spec, http)?;
            http_value(object, alloc, spec, http)
        }
        None => taken_value(alloc, spec),
    }
}

/// The object of a pusher that is taken away.
fn taken_value(alloc: Global, spec: &PusherSpec) -> Result<Json, OutOfMemory>
    ensures { IfOk result (λ json. json ≡ object_of (pusher_fields spec.now None)) }
{
    let object = with_text(
        JsonObject::new(alloc),
        alloc,
        "app_id",
        spec.app_id.as_str(),
    )?;
    let object = with_text(object, alloc, "cmd", "pusher")?;
    let object = with_value(object, alloc, "kind", Json::Null)?;
    let object = with_text(object, alloc, "pushkey", spec.pushkey.as_str())?;
    let object = with_text(object, alloc, "user", spec.user.as_text())?;
    Ok(Json::Object(object))
}

/// The first fields of a pusher that posts.
fn http_begun(
    alloc: Global,
    spec: &PusherSpec,
    http: &HttpPusher,
) -> Result<JsonObject, OutOfMemory>
    ensures { IfOk result (λ object. object.pairs ≡ given_pairs
        (text_field (codes "app_display_name") http.now.app_display_name
        ∷ text_field (codes "app_id") spec.now.app_id
        ∷ truth_if_given (codes "append") http.now.append
        ∷ text_field (codes "cmd") (codes "pusher")
        ∷ (codes "data", Some (Json.Object http.now.details))
        ∷ text_field (codes "device_display_name") http.now.device_display_name ∷ [])) }
{
    let app = http.app_display_name.as_str();
    let object = with_text(JsonObject::new(alloc), alloc, "app_display_name", app)?;
    let object = with_text(object, alloc, "app_id", spec.app_id.as_str())?;
    let object = with_truth_if_given(object, alloc, "append", http.append)?;
    let object = with_text(object, alloc, "cmd", "pusher")?;
    let details = http.details.copied(alloc)?;
    let object = with_value(object, alloc, "data", Json::Object(details))?;
    let device = http.device_display_name.as_str();
    with_text(object, alloc, "device_display_name", device)
}

/// The object of a pusher that posts, from its first fields.
fn http_value(
    begun: JsonObject,
    alloc: Global,
    spec: &PusherSpec,
    http: &HttpPusher,
) -> Result<Json, OutOfMemory>
    requires { http.now.ts < 2 ^ 63 }
    ensures { IfOk result (λ json. json ≡ Json.Object (record {
      pairs = begun.pairs ++ given_pairs
          (text_field (codes "kind") (codes "http") ∷ text_field (codes "lang") http.now.lang
          ∷ text_field (codes "pushkey") spec.now.pushkey
          ∷ (codes "ts", Some (Json.Whole (pos http.now.ts)))
          ∷ text_field (codes "user") spec.now.user ∷ []);
    })) }
{
    let object = with_text(begun, alloc, "kind", "http")?;
    let object = with_text(object, alloc, "lang", http.lang.as_str())?;
    let object = with_text(object, alloc, "pushkey", spec.pushkey.as_str())?;
    let object = with_number(object, alloc, "ts", http.ts)?;
    let object = with_text(object, alloc, "user", spec.user.as_text())?;
    Ok(Json::Object(object))
}
