ghost use Rattle.std.specs.Prelude.{◌≡◌, IfOk};
ghost use Rattle.mx_event.specs.Event.{room_id_of};
ghost use Rattle.mx_room.specs.Change.{sets_of};
ghost use Rattle.mx_room.specs.Hosted.{user_of};

use crate::plan::RoomPlan;
use mx_event::Event;
use mx_json::{IdError, OutOfMemory, RoomId, UserId};
use std::alloc::Global;
use std::marker::Model;

/// What an event will set in the state of its room, seen with the room's id.
#[derive(Drop)]
pub struct RoomsPlan {
    pub(crate) id: RoomId,
    pub(crate) room: RoomPlan,
    // Of whom something is set: a user to list, should that be one of the server.
    pub(crate) user: Option<UserId>,
}

impl Model for RoomsPlan {
    ghost use Rattle.std.specs.Prelude.{◌≡◌};
    ghost use Rattle.mx_room.specs.Hosted.{user_of};
    ghost use Rattle.mx_room.specs.Rooms.{PlannedRoom};

    ghost Value = { PlannedRoom };

    ghost use Rattle.mx_json.specs.contracts.value.Json as whole;
    ghost use Rattle.std.specs.Coded.{codes};

    ghost coded = { Prim.hlevel (codes, whole.the_row.coded) };

    ghost view = { λ plan. record {
      id = plan.id;
      sets = plan.room;
    } };

    ghost invariant = { λ plan. plan.user ≡ user_of plan.room.member };
}

impl RoomsPlan {
    // The plan of an event, whose room plans this.
    pub(crate) fn of(alloc: Global, event: &Event, room: RoomPlan) -> Result<RoomsPlan, OutOfMemory>
        ensures { IfOk result (λ plan. plan ≡ record { id = room_id_of event.now; sets = room }) }
    {
        Ok(RoomsPlan {
            id: event.room_id().copied(alloc)?,
            user: user_of(alloc, &room)?,
            room,
        })
    }
}

// The user of whom a plan sets something; `None` where the text isn't a user id.
fn user_of(alloc: Global, plan: &RoomPlan) -> Result<Option<UserId>, OutOfMemory>
    ensures { IfOk result (λ user. user ≡ user_of plan.now.member) }
{
    let Some((user, _)) = plan.member() else {
        return Ok(None);
    };
    match UserId::read(alloc, user) {
        Ok(user) => Ok(Some(user)),
        Err(IdError::BadId) => Ok(None),
        Err(IdError::OutOfMemory) => Err(OutOfMemory),
    }
}
