ghost use Rattle.std.specs.Prelude.{◌≡◌, ◌++◌, ◌∷◌, ℕ, List, true, [], is_some, IfOk, OnOk};
ghost use Rattle.std.specs.FinSet as set;
ghost use Rattle.std.specs.List.{IsDistinct, list_any};
ghost use Rattle.std.specs.Map.{lookup};
ghost use Rattle.std.specs.Str.{bytes_eq};
ghost use Rattle.mx_json.specs.declared.value.Json.{Json};
ghost use Rattle.mx_event.specs.Event.{room_id_of};
ghost use Rattle.mx_room.specs.Change.{sets_of, with_sets};
ghost use Rattle.mx_room.specs.Hosted.{AreHosted, KeepsRooms, ready_in, states_in};
ghost use Rattle.mx_room.specs.Members.{membership_at};
ghost use Rattle.mx_room.specs.Rooms.{is_local_member, room_at, rooms_of, with_room};

use crate::hosted::HostedRoom;
use crate::rooms_plan::RoomsPlan;
use crate::view::RoomView;
use mx_event::Event;
use mx_json::{OutOfMemory, RoomId, UserId};
use std::alloc::Global;
use std::collections::HashMap;
use std::marker::Model;

/// The rooms of one homeserver, seen as its name, the states of the rooms that have an event, and
/// the rooms for whose next event there is capacity.
///
/// Each call is at most three look-ups by id. None walks the rooms or a room's members; applying an
/// event that names a local user walks the room's joined local users.
#[derive(Drop)]
pub struct Rooms {
    server: String,
    rooms: HashMap<RoomId, HostedRoom>,
}

impl Model for Rooms {
    ghost use Rattle.std.specs.String.{string_bytes};
    ghost use Rattle.mx_room.specs.Rooms.{RoomsView};

    ghost Value = { RoomsView };

    ghost use Rattle.mx_json.specs.contracts.value.Json as whole;
    ghost use Rattle.std.specs.Coded.{codes};
    ghost use Rattle.std.specs.FinMap as map;
    ghost use Rattle.std.specs.FinSet as set;

    ghost coded = { Prim.hlevel (codes, map.code, set.code, whole.the_row.coded) };

    ghost use Rattle.mx_room.specs.Hosted.{AreHosted, view_of};

    ghost view = { λ rooms. view_of (string_bytes rooms.server) rooms.rooms.entries };

    ghost invariant = { λ rooms. AreHosted (string_bytes rooms.server) rooms.rooms.entries };
}

impl Rooms {
    /// The rooms of the homeserver of this name, none of which has an event.
    ///
    /// # Errors
    ///
    /// `OutOfMemory` where the allocator has none.
    pub fn new(alloc: Global, server: &str) -> Result<Rooms, OutOfMemory>
        ensures server { IfOk result (λ rooms. rooms.server ≡ server.now) }
        ensures states { IfOk result (λ rooms. rooms.states ≡ rooms_of []) }
    {
        Ok(Rooms {
            server: String::from_str(alloc, server)?,
            rooms: HashMap::new(alloc),
        })
    }

    /// The name of the homeserver.
    pub fn server(&self) -> &str
        ensures { result.now ≡ self.now.server }
    {
        self.server.as_str()
    }

    /// Takes all memory that an event needs in its room, and plans what it will set there.
    ///
    /// # Errors
    ///
    /// `OutOfMemory` where the allocator has none.
    pub fn prepare(&mut self, alloc: Global, event: &Event) -> Result<RoomsPlan, OutOfMemory>
        ensures server { self.new.server ≡ self.old.server }
        ensures states { self.new.states ≡ self.old.states }
        ensures capacity { OnOk result
            (set.contains self.new.capacity (room_id_of event.now) ≡ true) }
        ensures plan { IfOk result
            (λ plan. plan ≡ record { id = room_id_of event.now; sets = sets_of event.now }) }
    {
        enter(&mut self.rooms, alloc, event.room_id())?;
        prepare_in(&mut self.rooms, alloc, event)
    }

    /// The state of the planned event's room after that event.
    pub fn view<'a>(&'a self, plan: &'a RoomsPlan) -> RoomView<'a>
        requires { set.contains self.now.capacity plan.now.id ≡ true }
        ensures { result ≡ with_sets plan.now.sets (room_at self.now.states plan.now.id) }
    {
        match self.rooms.get(&plan.id) {
            Some(hosted) => hosted.room.view(Some(&plan.room)),
            None => unreachable!(),
        }
    }

    /// The users of this homeserver who are joined in a room, in no order that is told.
    pub fn local_members(&self, id: &RoomId) -> &[UserId]
        ensures members { (user : List ℕ) → list_any (bytes_eq user) result.now
            ≡ is_local_member self.now.server (room_at self.now.states id.now) user }
        ensures distinct { IsDistinct bytes_eq result.now }
    {
        match self.rooms.get(id) {
            Some(hosted) => hosted.local.users(),
            None => &[],
        }
    }

    /// The user's membership of a room; `leave` where no event of the room speaks of the user.
    /// Takes no memory.
    pub fn membership(&self, id: &RoomId, user: &str) -> &str
        ensures { result.now ≡ membership_at (room_at self.now.states id.now) user.now }
    {
        match self.rooms.get(id) {
            Some(hosted) => hosted.room.membership(user),
            None => "leave",
        }
    }

    /// Sets what was planned. It takes no memory.
    pub fn apply(&mut self, plan: RoomsPlan)
        requires { set.contains self.old.capacity plan.id ≡ true }
        ensures server { self.new.server ≡ self.old.server }
        ensures states { self.new.states ≡ with_room plan.id plan.sets self.old.states }
        ensures step { (events : List Json) (event : Json) → self.old.states ≡ rooms_of events
            → plan ≡ record { id = room_id_of event; sets = sets_of event }
            → self.new.states ≡ rooms_of (events ++ event ∷ []) }
    {
        let RoomsPlan { id, room, user } = plan;
        match self.rooms.get_mut(&id) {
            Some(hosted) => hosted.apply(self.server.as_str(), room, user),
            None => unreachable!(),
        }
    }
}

// Enters a room without an event where there is none of this id.
fn enter(
    rooms: &mut HashMap<RoomId, HostedRoom>,
    alloc: Global,
    id: &RoomId,
) -> Result<(), OutOfMemory>
    ensures keeps { (server : List ℕ) → AreHosted server rooms.old.entries
        → KeepsRooms server rooms.old.entries rooms.new.entries }
    ensures entered { OnOk result
        (is_some (lookup (bytes_eq id.now) rooms.new.entries) ≡ true) }
{
    if rooms.contains_key(id) {
        return Ok(());
    }
    rooms.insert(id.copied(alloc)?, HostedRoom::new(alloc)?)?;
    Ok(())
}

// Takes all memory that an event needs in its room, which is entered, and plans what it will set.
fn prepare_in(
    rooms: &mut HashMap<RoomId, HostedRoom>,
    alloc: Global,
    event: &Event,
) -> Result<RoomsPlan, OutOfMemory>
    requires { is_some (lookup (bytes_eq (room_id_of event.now)) rooms.old.entries) ≡ true }
    ensures keeps { (server : List ℕ) → AreHosted server rooms.old.entries
        → KeepsRooms server rooms.old.entries rooms.new.entries }
    ensures capacity { OnOk result
        (set.contains (ready_in rooms.new.entries) (room_id_of event.now) ≡ true) }
    ensures plan { IfOk result
        (λ plan. plan ≡ record { id = room_id_of event.now; sets = sets_of event.now }) }
{
    match rooms.get_mut(event.room_id()) {
        Some(hosted) => hosted.prepare(alloc, event),
        None => unreachable!(),
    }
}
