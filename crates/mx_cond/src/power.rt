ghost use Rattle.std.specs.Prelude.{◌≡◌, true, option_map, IfOk, IfSome};
ghost use Rattle.std.specs.Option.{option_copied};
ghost use Rattle.mx_json.specs.Json.{is_valid};
ghost use Rattle.mx_cond.specs.PowerLevels.{needed_power, power_by, power_of, whole_within};

use mx_json::{Json, OutOfMemory};
use std::alloc::Global;
use std::marker::Model;

/// The power that a notification needs where the power levels don't say one.
const USUAL_NEED: i64 = 50;

/// The power levels of a room (Client-Server API v1.11, "m.room.power_levels"), seen as the content
/// of their event, or none where the room has no such event.
#[derive(Drop)]
pub struct PowerTable {
    content: Option<Json>,
}

impl Model for PowerTable {
    ghost use Rattle.std.specs.Prelude.{Option};
    ghost use Rattle.mx_json.specs.declared.value.Json.{Json};

    ghost Value = { Option Json };

    ghost use Rattle.mx_json.specs.contracts.value.Json as whole;
    ghost use Rattle.std.specs.Coded.{codes};

    ghost coded = { Prim.hlevel (codes, whole.the_row.coded) };

    ghost use Rattle.std.specs.Prelude.{◌≡◌, true, IfSome};
    ghost use Rattle.mx_json.specs.Json.{is_valid};

    ghost view = { λ table. table.content };

    ghost invariant = { λ table. IfSome table.content (λ content. is_valid content ≡ true) };
}

impl PowerTable {
    /// The table of a room whose power levels have this content; `None` stands for a room without
    /// power levels.
    ///
    /// # Errors
    ///
    /// `OutOfMemory` where the allocator has none.
    pub fn of(alloc: Global, content: Option<&Json>) -> Result<PowerTable, OutOfMemory>
        requires { IfSome content (λ json. is_valid json.now ≡ true) }
        ensures { IfOk result (λ table. table ≡ option_copied content.entry) }
    {
        let content = match content {
            Some(json) => Some(json.copied(alloc)?),
            None => None,
        };
        Ok(PowerTable { content })
    }

    /// The power that a notification with this key needs: `notifications[key]` where that is a
    /// whole number, else 50. It takes no memory.
    #[tactic(auto, unfolding(crate::specs::PowerLevels::needed_power))]
    pub fn needed(&self, key: &str) -> i64
        ensures { result ≡ needed_power key.now self.now }
    {
        let said = match &self.content {
            Some(content) => whole_within(content, "notifications", key),
            None => None,
        };
        match said {
            Some(power) => power,
            None => USUAL_NEED,
        }
    }

    /// The power of a user: `users[user]`, else `users_default`, else 0, where values that aren't
    /// whole numbers count as absent. `None` exactly where the room has no power levels. It takes
    /// no memory.
    pub fn power(&self, user: &str) -> Option<i64>
        ensures { result ≡ power_of user.now self.now }
    {
        let content = self.content.as_ref()?;
        Some(power_by(content, user))
    }
}

// The power of a user by the content of power levels.
#[tactic(auto, unfolding(crate::specs::PowerLevels::power_by))]
fn power_by(content: &Json, user: &str) -> i64
    requires { is_valid content.now ≡ true }
    ensures { result ≡ power_by user.now content.now }
{
    if let Some(power) = whole_within(content, "users", user) {
        return power;
    }
    match content.whole_at("users_default") {
        Some(power) => power,
        None => 0,
    }
}

// The whole number with the second key in the object with the first.
fn whole_within(json: &Json, outer: &str, key: &str) -> Option<i64>
    requires { is_valid json.now ≡ true }
    ensures { result ≡ whole_within outer.now key.now json.now }
{
    json.member(outer)?.whole_at(key)
}
