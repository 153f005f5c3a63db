ghost use Rattle.std.specs.Prelude.{◌≡◌, ◌++◌, ◌∷◌, [], true, List, IfOk, OnOk};
ghost use Rattle.std.specs.FinMap as map;
ghost use Rattle.std.specs.FinSet as set;
ghost use Rattle.std.specs.List.{IsDistinct};
ghost use Rattle.std.specs.Map.{keys_of};
ghost use Rattle.std.specs.Str.{bytes_eq};
ghost use Rattle.mx_event.specs.Event.{room_id_of};
ghost use Rattle.mx_records.specs.Judging.{notice_in, notices_in};
ghost use Rattle.mx_records.specs.Rules.{rules_among};
ghost use Rattle.mx_room.specs.Change.{sets_of, with_sets};
ghost use Rattle.mx_room.specs.Rooms.{room_at};
ghost use Rattle.mx_room.specs.State.{named_by};
ghost use Rattle.mx_engine.specs.Noticing.{beside, IsListed, said_of};

use crate::rules::UserRules;
use mx_event::Event;
use mx_glob::Scratch;
use mx_json::{IdError, OutOfMemory, UserId};
use mx_room::{RoomView, Rooms, RoomsPlan};
use std::alloc::Global;

/// The users whom an event of this plan notifies, each with whether it is highlighted.
pub(crate) fn notified_users(
    alloc: Global,
    event: &Event,
    rooms: &Rooms,
    plan: &RoomsPlan,
    rules: &UserRules,
    scratch: &mut Scratch,
) -> Result<Vec<(UserId, bool)>, OutOfMemory>
    requires server { rules.now.server ≡ rooms.now.server }
    requires capacity { set.contains rooms.now.capacity plan.now.id ≡ true }
    requires plan { plan.now ≡ record { id = room_id_of event.now; sets = sets_of event.now } }
    ensures users { IfOk result (λ users. map.from_entries users.items
        ≡ notices_in rules.now.server (rules_among rules.now.server rules.now.edited)
        (with_sets (sets_of event.now) (room_at rooms.now.states (room_id_of event.now)))
        event.now) }
    ensures once { IfOk result (λ users. IsDistinct bytes_eq (keys_of users.items)) }
{
    let view = rooms.view(plan);
    let members = rooms.local_members(event.room_id());
    notified_in(alloc, event, &view, members, rules, scratch)
}

// The users whom an event notifies, in a room of this state after it and with these joined local
// users before it.
fn notified_in(
    alloc: Global,
    event: &Event,
    view: &RoomView,
    members: &[UserId],
    rules: &UserRules,
    scratch: &mut Scratch,
) -> Result<Vec<(UserId, bool)>, OutOfMemory>
    requires listed { IsListed rules.now.server event.now view.now members.now }
    requires once { IsDistinct bytes_eq members.now }
    ensures users { IfOk result (λ users. map.from_entries users.items
        ≡ notices_in rules.now.server
        (rules_among rules.now.server rules.now.edited) view.now event.now) }
    ensures once { IfOk result (λ users. IsDistinct bytes_eq (keys_of users.items)) }
{
    let mut users = notified_among(alloc, event, view, members, rules, scratch)?;
    if let Some(named) = named_beside(alloc, event, members)? {
        note(alloc, event, view, &named, rules, scratch, &mut users)?;
    }
    Ok(users)
}

// Those of these users whom an event notifies.
fn notified_among(
    alloc: Global,
    event: &Event,
    view: &RoomView,
    members: &[UserId],
    rules: &UserRules,
    scratch: &mut Scratch,
) -> Result<Vec<(UserId, bool)>, OutOfMemory>
    ensures { IfOk result (λ users. users.items
        ≡ said_of (notice_in rules.now.server
        (rules_among rules.now.server rules.now.edited) view.now event.now) members.now) }
{
    let mut users = Vec::new(alloc);
    for user in members {
        note(alloc, event, view, user, rules, scratch, &mut users)?;
    }
    Ok(users)
}

// Adds this user to those whom an event notifies, if it does.
fn note(
    alloc: Global,
    event: &Event,
    view: &RoomView,
    user: &UserId,
    rules: &UserRules,
    scratch: &mut Scratch,
    users: &mut Vec<(UserId, bool)>,
) -> Result<(), OutOfMemory>
    ensures { OnOk result (users.new.items ≡ users.old.items
        ++ said_of (notice_in rules.now.server
        (rules_among rules.now.server rules.now.edited) view.now event.now)
        (user.now ∷ [])) }
{
    let Some(verdict) = rules.verdict(alloc, event, user, view, scratch)? else {
        return Ok(());
    };
    if verdict.notify {
        users.push((user.copied(alloc)?, verdict.highlight))?;
    }
    Ok(())
}

// The user whom an event makes a member, where that is a user id which isn't among these.
fn named_beside(
    alloc: Global,
    event: &Event,
    members: &[UserId],
) -> Result<Option<UserId>, OutOfMemory>
    ensures { IfOk result (λ named. named ≡ beside members.now (named_by event.now)) }
{
    let Some((named, _)) = event.membership() else {
        return Ok(None);
    };
    if members.iter().any(|member| member.as_text() == named) {
        return Ok(None);
    }
    match UserId::read(alloc, named) {
        Ok(named) => Ok(Some(named)),
        Err(IdError::BadId) => Ok(None),
        Err(IdError::OutOfMemory) => Err(OutOfMemory),
    }
}
