ghost use Rattle.std.specs.Prelude.{◌≡◌, ◌<◌, [], ℕ, List, true, false, ◌&&◌, is_some};
ghost use Rattle.std.specs.Prelude.{if◌then◌else◌, length, IfOk, OnOk};
ghost use Rattle.std.specs.List.{list_any};
ghost use Rattle.std.specs.Option.{option_map_or};
ghost use Rattle.std.specs.Str.{bytes_eq};
ghost use Rattle.mx_json.specs.Ids.{is_local};
ghost use Rattle.mx_event.specs.Event.{room_id_of};
ghost use Rattle.mx_room.specs.Change.{sets_of, with_sets};
ghost use Rattle.mx_room.specs.Hosted.{IsListing, is_ready, user_of};
ghost use Rattle.mx_room.specs.State.{room_of};

use crate::local_members::LocalMembers;
use crate::plan::RoomPlan;
use crate::room::Room;
use crate::rooms_plan::RoomsPlan;
use mx_event::Event;
use mx_json::{OutOfMemory, UserId};
use std::alloc::Global;

/// A room of a homeserver, with its joined local users.
#[derive(Drop)]
pub(crate) struct HostedRoom {
    pub(crate) room: Room,
    pub(crate) local: LocalMembers,
    // Whether it has an event yet: it is made before its first one is applied.
    pub(crate) known: bool,
}

impl HostedRoom {
    // A room without an event.
    pub(crate) fn new(alloc: Global) -> Result<HostedRoom, OutOfMemory>
        ensures state { IfOk result (λ hosted. hosted.room.state ≡ room_of []) }
        ensures users { IfOk result (λ hosted. hosted.local.users ≡ []) }
        ensures known { IfOk result (λ hosted. hosted.known ≡ false) }
    {
        Ok(HostedRoom {
            room: Room::new(alloc)?,
            local: LocalMembers::new(alloc),
            known: false,
        })
    }

    // Takes all memory that an event of this room needs, and plans what it will set.
    pub(crate) fn prepare(&mut self, alloc: Global, event: &Event) -> Result<RoomsPlan, OutOfMemory>
        ensures state { self.new.room.state ≡ self.old.room.state }
        ensures users { self.new.local.users ≡ self.old.local.users }
        ensures known { self.new.known ≡ self.old.known }
        ensures capacity { OnOk result (is_ready self.new ≡ true) }
        ensures plan { IfOk result
            (λ plan. plan ≡ record { id = room_id_of event.now; sets = sets_of event.now }) }
    {
        let plan = self.room.prepare(alloc, event)?;
        self.local.reserve()?;
        RoomsPlan::of(alloc, event, plan)
    }

    // Sets what was planned, where this is the user of whom something is set. Takes no memory.
    pub(crate) fn apply(&mut self, server: &str, plan: RoomPlan, user: Option<UserId>)
        requires capacity { is_ready self.old ≡ true }
        requires user { user ≡ user_of plan.member }
        ensures state { self.new.room.state ≡ with_sets plan self.old.room.state }
        ensures listing { IsListing server.now self.old.room.state self.old.local.users
            → IsListing server.now self.new.room.state self.new.local.users }
        ensures known { self.new.known ≡ true }
    {
        set_user(&mut self.local, server, user, plan.joins());
        self.room.apply(plan);
        self.known = true;
    }
}

// Lists a user who is one of the server where joined, and else no more.
fn set_user(local: &mut LocalMembers, server: &str, user: Option<UserId>, joined: bool)
    requires { length local.old.users < local.old.capacity }
    ensures { (q : List ℕ) → list_any (bytes_eq q) local.new.users
        ≡ (if option_map_or (λ user. is_local server.now user && bytes_eq q user)
        user false then joined else list_any (bytes_eq q) local.old.users) }
{
    let Some(user) = user else {
        return;
    };
    if user.localpart_on(server).is_some() {
        local.set(user, joined);
    }
}
