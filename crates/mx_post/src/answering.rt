//! What a gateway's reply settles.

ghost use Rattle.std.specs.Prelude.{◌≡◌, true, IfOk};
ghost use Rattle.std.specs.List.{list_any};
ghost use Rattle.mx_json.specs.Json.{is_valid};
ghost use Rattle.mx_post.specs.Answers.{answer_of, has_rejected, is_success, is_text, rejects};

use crate::answers::Answer;
use mx_json::{Json, JsonError, JsonList, OutOfMemory};
use std::alloc::Global;

/// What the reply with this status and this body says: `Failed` exactly where the status isn't 2xx,
/// `Rejected` exactly where it is and the body is JSON of whole numbers, nested at most 127 deep,
/// and an object whose `rejected` is a list that has the pushkey (Push Gateway API v1, "POST
/// /_matrix/push/v1/notify").
///
/// # Errors
///
/// `OutOfMemory` where the allocator has none.
pub fn answer(alloc: Global, status: u16, body: &[u8], pushkey: &str) -> Result<Answer, OutOfMemory>
    ensures { IfOk result (λ answer. answer ≡ answer_of status body.now pushkey.now) }
{
    if !is_success(status) {
        return Ok(Answer::Failed);
    }
    if rejects(alloc, body, pushkey)? {
        Ok(Answer::Rejected)
    } else {
        Ok(Answer::Pushed)
    }
}

fn is_success(status: u16) -> bool
    ensures { result ≡ is_success status }
{
    200 <= status && status <= 299
}

fn rejects(alloc: Global, body: &[u8], pushkey: &str) -> Result<bool, OutOfMemory>
    ensures { IfOk result (λ rejected. rejected ≡ rejects pushkey.now body.now) }
{
    match Json::from_text(alloc, body, 127) {
        Ok(json) => Ok(has_rejected(&json, pushkey)),
        Err(JsonError::OutOfMemory) => Err(OutOfMemory),
        Err(_) => Ok(false),
    }
}

fn has_rejected(json: &Json, pushkey: &str) -> bool
    requires { is_valid json.now ≡ true }
    ensures { result ≡ has_rejected pushkey.now json.now }
{
    match json.list_at("rejected") {
        Some(rejected) => has_text(rejected, pushkey),
        None => false,
    }
}

fn has_text(list: &JsonList, text: &str) -> bool
    ensures { result ≡ list_any (is_text text.now) list.now.items }
{
    list.items.as_slice().iter().any(|item| is_text(item, text))
}

fn is_text(json: &Json, text: &str) -> bool
    ensures { result ≡ is_text text.now json.now }
{
    json.as_text() == Some(text)
}
