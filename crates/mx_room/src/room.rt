ghost use Rattle.std.specs.Prelude.{◌≡◌, ◌<◌, ◌++◌, ◌∷◌, [], true, List, IfOk, IfSome, IsSome};
ghost use Rattle.std.specs.Prelude.{OnOk, option_and_then, option_map};
ghost use Rattle.std.specs.FinMap.{get, insert, len};
ghost use Rattle.std.specs.HashMap.{spare};
ghost use Rattle.std.specs.Option.{option_copied, option_or};
ghost use Rattle.std.specs.String.{string_bytes};
ghost use Rattle.mx_json.specs.declared.value.Json.{Json};
ghost use Rattle.mx_room.specs.Change.{after, sets_of, with_member, with_sets};
ghost use Rattle.mx_room.specs.Kept.{by_bytes, by_text};
ghost use Rattle.mx_room.specs.Members.{has_joined, joined_count, joined_where, joins};
ghost use Rattle.mx_room.specs.Members.{membership_at};
ghost use Rattle.mx_room.specs.State.{room_of};

use crate::member::Member;
use crate::plan::RoomPlan;
use crate::view::RoomView;
use mx_cond::PowerTable;
use mx_event::Event;
use mx_json::{JsonText, OutOfMemory};
use std::alloc::Global;
use std::collections::HashMap;
use std::marker::Model;

/// The state of a room, seen as what its events say, and for how many further members there is
/// capacity.
#[derive(Drop)]
pub struct Room {
    members: HashMap<String, Member>,
    joined: u64,
    powers: PowerTable,
    creator: Option<JsonText>,
}

impl Model for Room {
    ghost use Rattle.std.specs.Prelude.{◌≡◌, true};
    ghost use Rattle.std.specs.FinMap.{len};
    ghost use Rattle.std.specs.HashMap.{spare};
    ghost use Rattle.mx_room.specs.Kept.{by_text, KeptRoom};
    ghost use Rattle.mx_room.specs.Members.{joined_where};

    ghost Value = { KeptRoom };

    ghost use Rattle.mx_json.specs.contracts.value.Json as whole;
    ghost use Rattle.std.specs.Coded.{codes};
    ghost use Rattle.std.specs.FinMap as map;

    ghost coded = { Prim.hlevel (codes, map.code, whole.the_row.coded) };

    ghost view = { λ room. record {
      state = record {
        members = by_text room.members.entries;
        powers = room.powers;
        creator = room.creator;
      };
      capacity = spare room.members;
    } };

    ghost invariant = { λ room.
        room.joined ≡ len (joined_where (λ _. true) (by_text room.members.entries)) };
}

impl Room {
    /// A room of which nothing is known.
    ///
    /// # Errors
    ///
    /// `OutOfMemory` where the allocator has none.
    pub fn new(alloc: Global) -> Result<Room, OutOfMemory>
        ensures { IfOk result (λ room. room.state ≡ room_of []) }
    {
        Ok(Room {
            members: HashMap::new(alloc),
            joined: 0,
            powers: PowerTable::of(alloc, None)?,
            creator: None,
        })
    }

    /// Takes all memory that an event of this room needs, and plans what it will set.
    ///
    /// # Errors
    ///
    /// `OutOfMemory` where the allocator has none.
    pub fn prepare(&mut self, alloc: Global, event: &Event) -> Result<RoomPlan, OutOfMemory>
        ensures same { self.new.state ≡ self.old.state }
        ensures capacity { OnOk result (0 < self.new.capacity) }
        ensures plan { IfOk result (λ plan. plan ≡ sets_of event.now) }
    {
        self.members.reserve(1)?;
        RoomPlan::of(alloc, event)
    }

    /// The state after the planned event, or as it is now.
    pub fn view<'a>(&'a self, plan: Option<&'a RoomPlan>) -> RoomView<'a>
        ensures state { result ≡ after (option_copied plan.entry) self.now.state }
        ensures step { (events : List Json) (event : Json) → self.now.state ≡ room_of events
            → option_copied plan.entry ≡ Some (sets_of event)
            → result ≡ room_of (events ++ event ∷ []) }
    {
        RoomView::of(self, plan)
    }

    /// Sets what was planned. It takes no memory.
    pub fn apply(&mut self, plan: RoomPlan)
        requires { 0 < self.old.capacity }
        ensures change { self.new.state ≡ with_sets plan self.old.state }
        ensures step { (events : List Json) (event : Json) → self.old.state ≡ room_of events
            → plan ≡ sets_of event → self.new.state ≡ room_of (events ++ event ∷ []) }
    {
        let RoomPlan {
            member,
            powers,
            creator,
        } = plan;
        self.joined = set_member(&mut self.members, self.joined, member);
        set_powers(&mut self.powers, powers);
        set_creator(&mut self.creator, creator);
    }

    // What is said of this user.
    pub(crate) fn member(&self, user: &str) -> Option<&Member>
        ensures { option_copied result ≡ get self.now.state.members user.now }
    {
        member_in(&self.members, user)
    }

    // The membership that is said of this user, and `leave` where nothing is.
    pub(crate) fn membership(&self, user: &str) -> &str
        ensures { result.now ≡ membership_at self.now.state user.now }
    {
        match self.member(user) {
            Some(member) => member.membership.as_str(),
            None => "leave",
        }
    }

    // How many members are joined.
    pub(crate) fn joined(&self) -> u64
        ensures { result ≡ joined_count self.now.state }
    {
        self.joined
    }

    // How many members would be joined after this was said of this user.
    pub(crate) fn joined_with(&self, user: &str, member: &Member) -> u64
        ensures { result
            ≡ len (joined_where (λ _. true) (insert self.now.state.members user.now member.now)) }
    {
        joined_after(&self.members, self.joined, user, member)
    }

    // The room's power levels.
    pub(crate) fn powers(&self) -> &PowerTable
        ensures { result.now ≡ self.now.state.powers }
    {
        &self.powers
    }

    // The room's creator, if known.
    pub(crate) fn creator(&self) -> Option<&str>
        ensures { option_copied result ≡ self.now.state.creator }
    {
        match &self.creator {
            Some(creator) => Some(creator.as_str()),
            None => None,
        }
    }
}

// What is said of this user.
fn member_in<'a>(members: &'a HashMap<String, Member>, user: &str) -> Option<&'a Member>
    ensures { option_copied result ≡ get (by_text members.now.entries) user.now }
{
    members.get(user)
}

// Whether this user is joined.
fn is_joined(members: &HashMap<String, Member>, user: &str) -> bool
    ensures { result ≡ has_joined (by_text members.now.entries) user.now }
{
    match member_in(members, user) {
        Some(member) => member.has_joined(),
        None => false,
    }
}

// How many members are joined after this is said of this user, where so many are now.
fn joined_after(members: &HashMap<String, Member>, joined: u64, user: &str, member: &Member) -> u64
    requires { joined ≡ len (joined_where (λ _. true) (by_text members.now.entries)) }
    ensures { result
        ≡ len
        (joined_where (λ _. true) (insert (by_text members.now.entries) user.now member.now)) }
{
    let _at_most = members.len();
    let joins = u64::from(member.has_joined());
    let was_joined = u64::from(is_joined(members, user));
    joined + joins - was_joined
}

// Sets what is said of a user; answers how many members are joined then.
fn set_member(
    members: &mut HashMap<String, Member>,
    joined: u64,
    set: Option<(String, Member)>,
) -> u64
    requires capacity { 0 < spare members.old }
    requires joined { joined ≡ len (joined_where (λ _. true) (by_text members.old.entries)) }
    ensures members { by_text members.new.entries
        ≡ with_member (option_map by_bytes set) (by_text members.old.entries) }
    ensures joined { result ≡ len (joined_where (λ _. true) (by_text members.new.entries)) }
{
    let Some((user, member)) = set else {
        return joined;
    };
    let joined = joined_after(members, joined, user.as_str(), &member);
    put_member(members, user, member);
    joined
}

fn put_member(members: &mut HashMap<String, Member>, user: String, member: Member)
    requires { 0 < spare members.old }
    ensures { by_text members.new.entries
        ≡ insert (by_text members.old.entries) (string_bytes user) member }
{
    match members.insert(user, member) {
        Ok(_) => {}
        Err(_) => unreachable!(),
    }
}

// Sets power levels, where there are any to set.
fn set_powers(powers: &mut PowerTable, set: Option<PowerTable>)
    requires { IfSome set IsSome }
    ensures { powers.new ≡ option_or (option_and_then (λ powers. powers) set) powers.old }
{
    if let Some(set) = set {
        *powers = set;
    }
}

// Sets the creator, where there is one to set.
fn set_creator(creator: &mut Option<JsonText>, set: Option<JsonText>)
    ensures { creator.new ≡ option_or set creator.old }
{
    if set.is_some() {
        *creator = set;
    }
}
