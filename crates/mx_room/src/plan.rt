ghost use Rattle.std.specs.Prelude.{◌≡◌, false, IfOk, IfSome, IsSome, option_and_then, option_map};
ghost use Rattle.std.specs.Option.{option_copied, option_map_or};
ghost use Rattle.mx_room.specs.Change.{creator_set_by, powers_set_by, sets_of};
ghost use Rattle.mx_room.specs.Members.{joins};
ghost use Rattle.mx_room.specs.State.{is_state};

use crate::member::{Member, member_set_by};
use mx_cond::PowerTable;
use mx_event::Event;
use mx_json::{JsonText, OutOfMemory};
use std::alloc::Global;
use std::marker::Model;

/// What an event will set in the state of its room, with all memory that this needs.
#[derive(Drop)]
pub struct RoomPlan {
    pub(crate) member: Option<(String, Member)>,
    pub(crate) powers: Option<PowerTable>,
    pub(crate) creator: Option<JsonText>,
}

impl Model for RoomPlan {
    ghost use Rattle.std.specs.Prelude.{IfSome, IsSome, option_and_then, option_map};
    ghost use Rattle.mx_room.specs.Change.{Sets};
    ghost use Rattle.mx_room.specs.Kept.{by_bytes};

    ghost Value = { Sets };

    ghost use Rattle.mx_json.specs.contracts.value.Json as whole;
    ghost use Rattle.std.specs.Coded.{codes};

    ghost coded = { Prim.hlevel (codes, whole.the_row.coded) };

    ghost view = { λ plan. record {
      member = option_map by_bytes plan.member;
      powers = option_and_then (λ powers. powers) plan.powers;
      creator = plan.creator;
    } };

    ghost invariant = { λ plan. IfSome plan.powers IsSome };
}

impl RoomPlan {
    // What this event sets.
    pub(crate) fn of(alloc: Global, event: &Event) -> Result<RoomPlan, OutOfMemory>
        ensures { IfOk result (λ plan. plan ≡ sets_of event.now) }
    {
        Ok(RoomPlan {
            member: member_set_by(alloc, event)?,
            powers: powers_set_by(alloc, event)?,
            creator: creator_set_by(alloc, event)?,
        })
    }

    // The user of whom this plan sets something, and what.
    pub(crate) fn member(&self) -> Option<(&str, &Member)>
        ensures { option_map (λ set. (set.0.now, set.1.now)) result ≡ self.now.member }
    {
        match &self.member {
            Some((user, member)) => Some((user.as_str(), member)),
            None => None,
        }
    }

    // Whether a user is joined after this plan, of whom it sets something.
    pub(crate) fn joins(&self) -> bool
        ensures { result ≡ option_map_or (λ set. joins set.1) self.now.member false }
    {
        match &self.member {
            Some((_, member)) => member.has_joined(),
            None => false,
        }
    }

    // The power levels that this plan sets.
    pub(crate) fn powers(&self) -> Option<&PowerTable>
        ensures powers { option_and_then (λ powers. powers.now) result ≡ self.now.powers }
        ensures content { IfSome result (λ powers. IsSome powers.now) }
    {
        self.powers.as_ref()
    }

    // The creator that this plan sets.
    pub(crate) fn creator(&self) -> Option<&str>
        ensures { option_copied result ≡ self.now.creator }
    {
        match &self.creator {
            Some(creator) => Some(creator.as_str()),
            None => None,
        }
    }
}

// The power levels that an event gives its room.
#[tactic(auto, unfolding(crate::specs::Change::powers_set_by))]
fn powers_set_by(alloc: Global, event: &Event) -> Result<Option<PowerTable>, OutOfMemory>
    ensures powers { IfOk result
        (λ set. option_and_then (λ powers. powers) set ≡ powers_set_by event.now) }
    ensures content { IfOk result (λ set. IfSome set IsSome) }
{
    if !is_state(event, "m.room.power_levels", "") {
        return Ok(None);
    }
    Ok(Some(PowerTable::of(alloc, Some(event.content()))?))
}

// The creator that an event gives its room.
#[tactic(auto, unfolding(crate::specs::Change::creator_set_by))]
fn creator_set_by(alloc: Global, event: &Event) -> Result<Option<JsonText>, OutOfMemory>
    ensures { IfOk result (λ creator. creator ≡ creator_set_by event.now) }
{
    if !is_state(event, "m.room.create", "") {
        return Ok(None);
    }
    let creator = match event.content().text_at("creator") {
        Some(creator) => creator,
        None => event.sender().as_text(),
    };
    Ok(Some(JsonText::read(alloc, creator)?))
}

// Whether the event is a state event of this type and this state key.
fn is_state(event: &Event, kind: &str, key: &str) -> bool
    ensures { result ≡ is_state kind.now key.now event.now }
{
    event.kind() == kind
        && match event.state_key() {
            Some(state_key) => state_key == key,
            None => false,
        }
}
