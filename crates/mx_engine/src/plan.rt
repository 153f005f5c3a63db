ghost use Rattle.std.specs.Prelude.{◌≡◌};

use mx_edit::EditPlan;
use mx_json::{EventId, RoomId, UserId};
use mx_room::RoomsPlan;
use mx_rows::ThreadKey;
use mx_thread::Place;
use std::marker::Model;

/// An input that was prepared for one state of an engine: all that applying it will take. Contracts
/// see the position that it will take, what it changes, and its payload.
#[derive(Drop)]
pub struct Plan {
    pub(crate) position: u64,
    pub(crate) change: Change,
    pub(crate) payload: Vec<u8>,
}

impl Model for Plan {
    ghost use Rattle.mx_engine.specs.Planning.{change_planned, IsMadeAt, Planned};

    ghost Value = { Planned };

    ghost use Rattle.mx_room.specs.contracts.rooms_plan.RoomsPlan as room;
    ghost use Rattle.mx_edit.specs.contracts.plan.EditPlan as edit;
    ghost use Rattle.std.specs.Coded.{codes};
    ghost use Rattle.std.specs.FinMap as map;

    ghost coded = { Prim.hlevel (codes, map.code, room.the_row.coded, edit.the_row.coded) };

    ghost view = { λ plan. record {
      position = plan.position;
      change = change_planned plan.change;
      payload = plan.payload.items;
    } };

    ghost invariant = { λ plan. IsMadeAt plan.position plan.change };
}

impl Plan {
    /// The payload of the input, which a journal keeps.
    pub fn payload(&self) -> &[u8]
        ensures { result.now ≡ self.now.payload }
    {
        self.payload.as_slice()
    }

    /// The plan with this payload.
    pub(crate) fn with_payload(self, payload: Vec<u8>) -> Plan
        ensures { result ≡ record self { payload = payload.items } }
    {
        let Plan {
            position,
            change,
            payload: _,
        } = self;
        Plan {
            position,
            change,
            payload,
        }
    }
}

/// What a plan changes.
#[derive(Drop)]
pub(crate) enum Change {
    /// An event is added.
    Adds(EventPlan),
    /// The rules of a user are edited.
    Edits { editor: UserId, plan: EditPlan },
    /// A user has read a room, or a thread of it.
    Reads(ReadPlan),
}

/// An event that is to be added: its id, what it sets in its room, its place, whom it notifies,
/// each with whether it is highlighted, and the user whose membership it changes, and not to an
/// invitation.
#[derive(Drop)]
pub(crate) struct EventPlan {
    pub(crate) id: EventId,
    pub(crate) room: RoomsPlan,
    pub(crate) place: Place,
    pub(crate) users: Vec<(UserId, bool)>,
    pub(crate) mover: Option<UserId>,
}

/// Rows that are to be dropped: those of the user in a thread of the room, or in all of its
/// threads, at or below the position.
#[derive(Drop)]
pub(crate) struct ReadPlan {
    pub(crate) user: UserId,
    pub(crate) room: RoomId,
    pub(crate) thread: Option<ThreadKey>,
    pub(crate) upto: u64,
}
