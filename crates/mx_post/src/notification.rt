//! The body of a post: the notification of an event.

ghost use Rattle.std.specs.Prelude.{◌≡◌, ◌≤◌, ◌++◌, true, codes, option_map, IfOk, IfSome, IsSome};
ghost use Rattle.std.specs.Prelude.{OnOk};
ghost use Rattle.std.specs.FinMap.{get};
ghost use Rattle.std.specs.Option.{option_copied};
ghost use Rattle.mx_json.specs.Canonical.{canonical};
ghost use Rattle.mx_json.specs.Json.{is_valid, largest_whole};
ghost use Rattle.mx_json.specs.declared.value.Json.{Object as ObjectValue, Text as TextValue};
ghost use Rattle.mx_event.specs.Event.{event_id_of, kind_of, room_id_of, sender_of};
ghost use Rattle.mx_post.specs.Pieces.{given_text};
ghost use Rattle.mx_post.specs.Post.{body_of, body_value, counts_value, event_value, ids_value};
ghost use Rattle.mx_post.specs.Post.{notification_value, prio_of, target_told, wants_ids_alone};

use crate::device::write_devices;
use crate::pieces::{write_number, write_text, write_truth, write_value};
use mx_event::Event;
use mx_json::{JsonObject, OutOfMemory, UserId};
use mx_records::{HttpPusher, PendingEvent, PusherSpec, Tweaks};
use std::alloc::Global;

/// The body of a post.
pub(crate) fn body_of(
    alloc: Global,
    spec: &PusherSpec,
    pending: &PendingEvent,
    unread: u64,
) -> Result<Vec<u8>, OutOfMemory>
    requires posts { IsSome spec.now.http }
    requires details { IfSome spec.now.http (λ http. is_valid (ObjectValue http.details) ≡ true) }
    requires seconds { IfSome spec.now.http (λ http. http.ts ≤ largest_whole) }
    requires pending { IsSome (get pending.now.users spec.now.user) }
    requires unread { unread ≤ largest_whole }
    ensures { IfOk result (λ body. body.items ≡ body_of spec.now pending.now unread) }
{
    match &spec.http {
        Some(http) => match pending.tweaks(&spec.user) {
            Some(tweaks) => body_with(alloc, spec, http, pending, tweaks, unread),
            None => unreachable!(),
        },
        None => unreachable!(),
    }
}

fn body_with(
    alloc: Global,
    spec: &PusherSpec,
    http: &HttpPusher,
    pending: &PendingEvent,
    tweaks: &Tweaks,
    unread: u64,
) -> Result<Vec<u8>, OutOfMemory>
    requires details { is_valid (ObjectValue http.now.details) ≡ true }
    requires seconds { http.now.ts ≤ largest_whole }
    requires unread { unread ≤ largest_whole }
    ensures { IfOk result (λ body. body.items
        ≡ canonical (body_value spec.now http.now pending.now tweaks.now unread)) }
{
    let mut body = Vec::new(alloc);
    body.extend_from_slice(b"{\"notification\":")?;
    write_notification(alloc, spec, http, pending, tweaks, unread, &mut body)?;
    body.push(b'}')?;
    Ok(body)
}

fn write_notification(
    alloc: Global,
    spec: &PusherSpec,
    http: &HttpPusher,
    pending: &PendingEvent,
    tweaks: &Tweaks,
    unread: u64,
    out: &mut Vec<u8>,
) -> Result<(), OutOfMemory>
    requires details { is_valid (ObjectValue http.now.details) ≡ true }
    requires seconds { http.now.ts ≤ largest_whole }
    requires unread { unread ≤ largest_whole }
    ensures { OnOk result (out.new.items ≡ out.old.items
        ++ canonical (notification_value spec.now http.now pending.now tweaks.now unread)) }
{
    if wants_ids_alone(&http.details) {
        write_ids(alloc, spec, http, pending, unread, out)
    } else {
        write_event(alloc, spec, http, pending, tweaks, unread, out)
    }
}

// Whether the gateway wants to be told ids alone.
fn wants_ids_alone(details: &JsonObject) -> bool
    requires { is_valid (ObjectValue details.now) ≡ true }
    ensures { result ≡ wants_ids_alone details.now }
{
    match details.get("format") {
        Some(format) => format.as_text() == Some("event_id_only"),
        None => false,
    }
}

// Appends what a gateway is told that wants ids alone.
fn write_ids(
    alloc: Global,
    spec: &PusherSpec,
    http: &HttpPusher,
    pending: &PendingEvent,
    unread: u64,
    out: &mut Vec<u8>,
) -> Result<(), OutOfMemory>
    requires details { is_valid (ObjectValue http.now.details) ≡ true }
    requires seconds { http.now.ts ≤ largest_whole }
    requires unread { unread ≤ largest_whole }
    ensures { OnOk result (out.new.items ≡ out.old.items
        ++ canonical (ids_value spec.now http.now pending.now unread)) }
{
    let event = pending.event();
    write_counts(alloc, b"{\"counts\":", unread, out)?;
    write_devices(alloc, spec, http, None, out)?;
    write_text(alloc, b",\"event_id\":", event.event_id().as_text(), out)?;
    write_text(alloc, b",\"room_id\":", event.room_id().as_text(), out)?;
    out.push(b'}')?;
    Ok(())
}

// Appends what every other gateway is told.
fn write_event(
    alloc: Global,
    spec: &PusherSpec,
    http: &HttpPusher,
    pending: &PendingEvent,
    tweaks: &Tweaks,
    unread: u64,
    out: &mut Vec<u8>,
) -> Result<(), OutOfMemory>
    requires details { is_valid (ObjectValue http.now.details) ≡ true }
    requires seconds { http.now.ts ≤ largest_whole }
    requires unread { unread ≤ largest_whole }
    ensures { OnOk result (out.new.items ≡ out.old.items
        ++ canonical (event_value spec.now http.now pending.now tweaks.now unread)) }
{
    let event = pending.event();
    write_value(alloc, b"{\"content\":", event.content(), out)?;
    write_counts(alloc, b",\"counts\":", unread, out)?;
    write_devices(alloc, spec, http, Some(tweaks), out)?;
    write_origin(alloc, event, prio_of(tweaks), out)?;
    write_name(alloc, pending.sender_display_name(), out)?;
    write_text(alloc, b",\"type\":", event.kind(), out)?;
    write_target(alloc, event, &spec.user, out)?;
    out.push(b'}')?;
    Ok(())
}

// Appends the number of unread rows.
fn write_counts(
    alloc: Global,
    before: &[u8],
    unread: u64,
    out: &mut Vec<u8>,
) -> Result<(), OutOfMemory>
    requires { unread ≤ largest_whole }
    ensures { OnOk result (out.new.items ≡ out.old.items
        ++ (before.now ++ canonical (counts_value unread))) }
{
    out.extend_from_slice(before)?;
    write_number(alloc, b"{\"unread\":", unread, out)?;
    out.push(b'}')?;
    Ok(())
}

// How urgent the notification is.
fn prio_of(tweaks: &Tweaks) -> &'static str
    ensures { result.now ≡ prio_of tweaks.now }
{
    if tweaks.sound.is_some() || tweaks.highlight {
        "high"
    } else {
        "low"
    }
}

// Appends which event it is, how urgent, in which room, and who sent it, as members that come after
// others.
fn write_origin(
    alloc: Global,
    event: &Event,
    prio: &str,
    out: &mut Vec<u8>,
) -> Result<(), OutOfMemory>
    ensures { OnOk result (out.new.items ≡ out.old.items
        ++ ((codes ",\"event_id\":" ++ canonical (TextValue (event_id_of event.now)))
        ++ ((codes ",\"prio\":" ++ canonical (TextValue prio.now))
        ++ ((codes ",\"room_id\":" ++ canonical (TextValue (room_id_of event.now)))
        ++ (codes ",\"sender\":" ++ canonical (TextValue (sender_of event.now))))))) }
{
    write_text(alloc, b",\"event_id\":", event.event_id().as_text(), out)?;
    write_text(alloc, b",\"prio\":", prio, out)?;
    write_text(alloc, b",\"room_id\":", event.room_id().as_text(), out)?;
    write_text(alloc, b",\"sender\":", event.sender().as_text(), out)?;
    Ok(())
}

// Appends the sender's display name as a member that comes after others, if there is one.
fn write_name(alloc: Global, name: Option<&str>, out: &mut Vec<u8>) -> Result<(), OutOfMemory>
    ensures { OnOk result (out.new.items ≡ out.old.items
        ++ given_text (codes "sender_display_name")
        (option_map TextValue (option_copied name.entry))) }
{
    match name {
        Some(name) => write_text(alloc, b",\"sender_display_name\":", name, out),
        None => Ok(()),
    }
}

// Appends whether the event sets this user's membership, if it sets one.
fn write_target(
    alloc: Global,
    event: &Event,
    user: &UserId,
    out: &mut Vec<u8>,
) -> Result<(), OutOfMemory>
    ensures { OnOk result (out.new.items ≡ out.old.items
        ++ given_text (codes "user_is_target") (target_told user.now event.now)) }
{
    match event.membership() {
        Some((member, _)) => {
            write_truth(
                alloc,
                b",\"user_is_target\":",
                member == user.as_text(),
                out,
            )
        }
        None => Ok(()),
    }
}
