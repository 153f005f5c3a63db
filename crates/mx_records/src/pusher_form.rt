//! The input that a setting of a pusher is, read from the object of its command.

ghost use Rattle.std.specs.Prelude.{◌≡◌, true, chars, codes, is_some, length, if◌then◌else◌, Some};
ghost use Rattle.std.specs.Prelude.{None, IfOk};
ghost use Rattle.mx_records.specs.Rules.{is_valid_input};
ghost use Rattle.mx_json.specs.Gives.{Gives};
ghost use Rattle.mx_json.specs.Json.{is_valid, text_at, text_or_empty, truth_at};
ghost use Rattle.mx_records.specs.Forms.{checked, value_of_form};
ghost use Rattle.mx_records.specs.Forms.{app_id_in, has_truth_or_none, is_app_id, is_pushkey};
ghost use Rattle.mx_records.specs.Forms.{pushkey_in, seconds_in, ts_field};
ghost use Rattle.mx_records.specs.Forms.{data_form, has_pusher_kind, has_url, http_form, is_set};
ghost use Rattle.mx_records.specs.Forms.{named_form, posting_form, pusher_form, shown_form};

use crate::edit_form::{read_user, text_or_none};
use crate::field_name::FieldName;
use crate::input::Input;
use crate::input_error::InputError;
use crate::pusher_spec::{HttpPusher, PusherSpec};
use mx_json::{Json, JsonObject, JsonText, UserId};
use std::alloc::Global;

/// How many bytes a pushkey may have.
const LONGEST_PUSHKEY: usize = 512;

/// How many characters an app's id may have.
const LONGEST_APP_ID: usize = 64;

/// How many bytes a gateway's URL may have.
const LONGEST_URL: usize = 2048;

/// The input of an object whose word is `pusher`.
pub(crate) fn read_pusher(alloc: Global, json: &Json) -> Result<Input, InputError>
    requires { is_valid json.now ≡ true }
    ensures input { Gives InputError.OutOfMemory result
        (value_of_form InputError.BadField (pusher_form json.now)) }
    ensures valid { IfOk result (λ input. is_valid_input input ≡ true) }
{
    let (user, pushkey, app_id, is_set) = read_named(alloc, json)?;
    let http = read_posting(alloc, json, is_set)?;
    Ok(Input::Pusher(PusherSpec {
        user,
        pushkey,
        app_id,
        http,
    }))
}

/// Whose pusher is set, which one, and whether it posts.
fn read_named(alloc: Global, json: &Json) -> Result<(UserId, JsonText, JsonText, bool), InputError>
    requires { is_valid json.now ≡ true }
    ensures { Gives InputError.OutOfMemory result
        (value_of_form InputError.BadField (named_form json.now)) }
{
    let user = read_user(alloc, json)?;
    let pushkey = read_pushkey(alloc, json)?;
    let app_id = read_app_id(alloc, json)?;
    let Some(is_set) = read_kind(json) else {
        return Err(InputError::BadField(FieldName::Kind));
    };
    Ok((user, pushkey, app_id, is_set))
}

/// What the gateway knows the device by.
fn read_pushkey(alloc: Global, json: &Json) -> Result<JsonText, InputError>
    requires { is_valid json.now ≡ true }
    ensures { Gives InputError.OutOfMemory result
        (checked FieldName.Pushkey (is_pushkey (pushkey_in json.now)) (pushkey_in json.now)) }
{
    let pushkey = json.text_or_empty("pushkey");
    if !is_pushkey(pushkey) {
        return Err(InputError::BadField(FieldName::Pushkey));
    }
    Ok(JsonText::read(alloc, pushkey)?)
}

/// Whether a text is as long as a pushkey may be.
fn is_pushkey(text: &str) -> bool
    ensures { result ≡ is_pushkey text.now }
{
    1 <= text.len() && text.len() <= LONGEST_PUSHKEY
}

/// The app that the device runs.
fn read_app_id(alloc: Global, json: &Json) -> Result<JsonText, InputError>
    requires { is_valid json.now ≡ true }
    ensures { Gives InputError.OutOfMemory result
        (checked FieldName.AppId (is_app_id (app_id_in json.now)) (app_id_in json.now)) }
{
    let app_id = json.text_or_empty("app_id");
    if !is_app_id(app_id) {
        return Err(InputError::BadField(FieldName::AppId));
    }
    Ok(JsonText::read(alloc, app_id)?)
}

/// Whether a text is as long as an app's id may be.
fn is_app_id(text: &str) -> bool
    ensures { result ≡ is_app_id text.now }
{
    let count = count_characters(text);
    1 <= count && count <= LONGEST_APP_ID
}

/// How many characters a text has.
fn count_characters(text: &str) -> usize
    ensures { result ≡ length (chars text.now) }
{
    text.chars().count()
}

/// Whether the pusher is set; `None` where its kind is neither `http` nor `null`.
fn read_kind(json: &Json) -> Option<bool>
    requires { is_valid json.now ≡ true }
    ensures { result ≡ (if has_pusher_kind json.now then Some (is_set json.now) else None) }
{
    match json.member("kind")? {
        Json::Null => Some(false),
        Json::Text(text) => if text.as_str() == "http" {
            Some(true)
        } else {
            None
        },
        _ => None,
    }
}

/// How the pusher posts, if it is set.
fn read_posting(alloc: Global, json: &Json, is_set: bool) -> Result<Option<HttpPusher>, InputError>
    requires { is_valid json.now ≡ true }
    ensures { Gives InputError.OutOfMemory result
        (value_of_form InputError.BadField (posting_form is_set json.now)) }
{
    if !is_set {
        return Ok(None);
    }
    let http = read_http(alloc, json)?;
    Ok(Some(http))
}

/// How the pusher posts.
fn read_http(alloc: Global, json: &Json) -> Result<HttpPusher, InputError>
    requires { is_valid json.now ≡ true }
    ensures { Gives InputError.OutOfMemory result
        (value_of_form InputError.BadField (http_form json.now)) }
{
    let (app_display_name, device_display_name, lang) = read_shown(alloc, json)?;
    let details = read_data(alloc, json)?;
    let append = read_append(json)?;
    let Some(ts) = read_seconds(json) else {
        return Err(InputError::BadField(FieldName::Ts));
    };
    Ok(HttpPusher {
        app_display_name,
        device_display_name,
        lang,
        details,
        append,
        ts,
    })
}

/// The names that the pusher shows to people, and its language.
fn read_shown(alloc: Global, json: &Json) -> Result<(JsonText, JsonText, JsonText), InputError>
    requires { is_valid json.now ≡ true }
    ensures { Gives InputError.OutOfMemory result
        (value_of_form InputError.BadField (shown_form json.now)) }
{
    let app = read_text(alloc, json, "app_display_name", FieldName::AppDisplayName)?;
    let device = read_text(
        alloc,
        json,
        "device_display_name",
        FieldName::DeviceDisplayName,
    )?;
    let lang = read_text(alloc, json, "lang", FieldName::Lang)?;
    Ok((app, device, lang))
}

/// The text under a key.
fn read_text(
    alloc: Global,
    json: &Json,
    key: &str,
    field: FieldName,
) -> Result<JsonText, InputError>
    requires { is_valid json.now ≡ true }
    ensures { Gives InputError.OutOfMemory result
        (checked field (is_some (text_at key.now json.now)) (text_or_empty key.now json.now)) }
{
    let Some(text) = json.text_at(key) else {
        return Err(InputError::BadField(field));
    };
    Ok(JsonText::read(alloc, text)?)
}

/// The object that the gateway is told.
fn read_data(alloc: Global, json: &Json) -> Result<JsonObject, InputError>
    requires { is_valid json.now ≡ true }
    ensures { Gives InputError.OutOfMemory result
        (value_of_form InputError.BadField (data_form json.now)) }
{
    let Some(data) = json.member("data") else {
        return Err(InputError::BadField(FieldName::Data));
    };
    let Json::Object(details) = data else {
        return Err(InputError::BadField(FieldName::Data));
    };
    if !has_url(data) {
        return Err(InputError::BadField(FieldName::DataUrl));
    }
    let _format = text_or_none(alloc, data, "format", FieldName::DataFormat)?;
    Ok(details.copied(alloc)?)
}

/// Whether a URL that isn't too long stands under `url`.
fn has_url(details: &Json) -> bool
    requires { is_valid details.now ≡ true }
    ensures { result ≡ has_url details.now }
{
    match details.text_at("url") {
        Some(url) => url.len() <= LONGEST_URL,
        None => false,
    }
}

/// Whether pushers of other users stay, if anything is said of it.
fn read_append(json: &Json) -> Result<Option<bool>, InputError>
    requires { is_valid json.now ≡ true }
    ensures { Gives InputError.OutOfMemory result
        (checked FieldName.Append (has_truth_or_none (codes "append") json.now)
        (truth_at (codes "append") json.now)) }
{
    match json.member("append") {
        None => Ok(None),
        Some(Json::Truth(append)) => Ok(Some(*append)),
        Some(_) => Err(InputError::BadField(FieldName::Append)),
    }
}

/// When the pusher was set, in seconds; `None` where that isn't said.
fn read_seconds(json: &Json) -> Option<u64>
    requires { is_valid json.now ≡ true }
    ensures { result ≡ seconds_in json.now }
{
    let seconds = json.whole_at("ts")?;
    u64::try_from(seconds).ok()
}
