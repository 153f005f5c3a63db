ghost use Rattle.std.specs.Prelude.{◌≡◌};
ghost use Rattle.std.specs.FinMap.{get};
ghost use Rattle.std.specs.Option.{option_copied};
ghost use Rattle.mx_room.specs.Change.{after, with_member};
ghost use Rattle.mx_room.specs.Members.{is_creator, joined_count, membership_at, name_at, power_at};

use crate::member::Member;
use crate::plan::RoomPlan;
use crate::room::Room;
use mx_cond::PowerTable;
use std::marker::Model;

/// The power of the creator of a room without power levels.
const CREATOR_POWER: i64 = 100;

/// The state of a room, now or after a planned event, to be asked.
#[derive(Drop)]
pub struct RoomView<'a> {
    room: &'a Room,
    plan: Option<&'a RoomPlan>,
}

impl<'a> Model for RoomView<'a> {
    ghost use Rattle.std.specs.Option.{option_copied};
    ghost use Rattle.mx_room.specs.Change.{after};
    ghost use Rattle.mx_room.specs.State.{RoomState};

    ghost Value = { RoomState };

    ghost use Rattle.mx_json.specs.contracts.value.Json as whole;
    ghost use Rattle.std.specs.Coded.{codes};
    ghost use Rattle.std.specs.FinMap as map;

    ghost coded = { Prim.hlevel (codes, map.code, whole.the_row.coded) };

    ghost view = { λ view. after (option_copied view.plan) view.room.now.state };
}

impl<'a> RoomView<'a> {
    // The state of this room, after this plan where there is one.
    pub(crate) fn of(room: &'a Room, plan: Option<&'a RoomPlan>) -> RoomView<'a>
        ensures { result ≡ after (option_copied plan.entry) room.now.state }
    {
        RoomView { room, plan }
    }

    /// The power of a user: by the power levels where the room has any, else 100 for its creator
    /// and 0 for others.
    pub fn power(&self, user: &str) -> i64
        ensures { result ≡ power_at self.now user.now }
    {
        if let Some(power) = self.powers().power(user) {
            return power;
        }
        if self.is_creator(user) {
            CREATOR_POWER
        } else {
            0
        }
    }

    /// The power levels, which may be those of a room without any.
    pub fn powers(&self) -> &PowerTable
        ensures { result.now ≡ self.now.powers }
    {
        let (room, plan) = (self.room, self.plan);
        let Some(plan) = plan else {
            return room.powers();
        };
        match plan.powers() {
            Some(powers) => powers,
            None => room.powers(),
        }
    }

    /// How many members are joined.
    pub fn joined(&self) -> u64
        ensures { result ≡ joined_count self.now }
    {
        let (room, plan) = (self.room, self.plan);
        let Some(plan) = plan else {
            return room.joined();
        };
        match plan.member() {
            Some((user, member)) => room.joined_with(user, member),
            None => room.joined(),
        }
    }

    /// The membership of a user; `leave` where the room says nothing of the user.
    pub fn membership(&self, user: &str) -> &str
        ensures { result.now ≡ membership_at self.now user.now }
    {
        match self.member(user) {
            Some(member) => member.membership.as_str(),
            None => "leave",
        }
    }

    /// The display name of a user, if any.
    pub fn name_of(&self, user: &str) -> Option<&str>
        ensures { option_copied result ≡ name_at self.now user.now }
    {
        match &self.member(user)?.name {
            Some(name) => Some(name.as_str()),
            None => None,
        }
    }

    fn member(&self, user: &str) -> Option<&Member>
        ensures { option_copied result ≡ get self.now.members user.now }
    {
        let (room, plan) = (self.room, self.plan);
        match plan {
            Some(plan) => member_after(room, plan, user),
            None => room.member(user),
        }
    }

    fn is_creator(&self, user: &str) -> bool
        ensures { result ≡ is_creator self.now user.now }
    {
        match self.creator() {
            Some(creator) => creator == user,
            None => false,
        }
    }

    fn creator(&self) -> Option<&str>
        ensures { option_copied result ≡ self.now.creator }
    {
        let (room, plan) = (self.room, self.plan);
        let Some(plan) = plan else {
            return room.creator();
        };
        match plan.creator() {
            Some(creator) => Some(creator),
            None => room.creator(),
        }
    }
}

// What is said of this user after this plan.
fn member_after<'a>(room: &'a Room, plan: &'a RoomPlan, user: &str) -> Option<&'a Member>
    ensures { option_copied result
        ≡ get (with_member plan.now.member room.now.state.members) user.now }
{
    let Some((named, member)) = plan.member() else {
        return room.member(user);
    };
    if named == user {
        Some(member)
    } else {
        room.member(user)
    }
}
