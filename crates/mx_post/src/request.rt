//! The request of a post.

ghost use Rattle.std.specs.Prelude.{◌≡◌, ◌≤◌, ◌++◌, true, decimal, IsSome, IfSome, OnOk, OnErr};
ghost use Rattle.std.specs.FinMap.{get};
ghost use Rattle.mx_json.specs.Json.{is_valid, largest_whole};
ghost use Rattle.mx_json.specs.declared.value.Json.{Object as ObjectValue};
ghost use Rattle.mx_post.specs.Post.{post_of, request_with};

use crate::notification::body_of;
use mx_json::OutOfMemory;
use mx_records::{PendingEvent, PusherSpec};
use mx_wire::Target;
use std::alloc::Global;

/// Appends the request that posts a pending event to a pusher's gateway, with the number of rows
/// that the user hasn't read (Push Gateway API v1, "POST /_matrix/push/v1/notify"). After an error
/// `out` is as before.
///
/// # Errors
///
/// `OutOfMemory` where the allocator has none.
pub fn request_into(
    alloc: Global,
    target: &Target,
    spec: &PusherSpec,
    pending: &PendingEvent,
    unread: u64,
    out: &mut Vec<u8>,
) -> Result<(), OutOfMemory>
    requires posts { IsSome spec.now.http }
    requires details { IfSome spec.now.http (λ http. is_valid (ObjectValue http.details) ≡ true) }
    requires seconds { IfSome spec.now.http (λ http. http.ts ≤ largest_whole) }
    requires pending { IsSome (get pending.now.users spec.now.user) }
    requires unread { unread ≤ largest_whole }
    ensures ok { OnOk result
        (out.new.items ≡ out.old.items ++ post_of target.now spec.now pending.now unread) }
    ensures err { OnErr result (out.new.items ≡ out.old.items) }
{
    let body = body_of(alloc, spec, pending, unread)?;
    let mut request = Vec::new(alloc);
    write_request(alloc, target, body.as_slice(), &mut request)?;
    out.extend_from_slice(request.as_slice())?;
    Ok(())
}

// Appends the request with this body.
fn write_request(
    alloc: Global,
    target: &Target,
    body: &[u8],
    out: &mut Vec<u8>,
) -> Result<(), OutOfMemory>
    ensures { OnOk result (out.new.items ≡ out.old.items ++ request_with target.now body.now) }
{
    out.extend_from_slice(b"POST ")?;
    out.extend_from_slice(target.text().as_bytes())?;
    out.extend_from_slice(b" HTTP/1.1\r\nHost: ")?;
    out.extend_from_slice(target.authority().as_bytes())?;
    out.extend_from_slice(b"\r\nContent-Type: application/json\r\nContent-Length: ")?;
    write_length(alloc, body.len(), out)?;
    out.extend_from_slice(b"\r\nConnection: close\r\n\r\n")?;
    out.extend_from_slice(body)?;
    Ok(())
}

fn write_length(alloc: Global, length: usize, out: &mut Vec<u8>) -> Result<(), OutOfMemory>
    ensures { OnOk result (out.new.items ≡ out.old.items ++ decimal length) }
{
    let text = format!(in alloc; "{length}")?;
    out.extend_from_slice(text.as_bytes())?;
    Ok(())
}
