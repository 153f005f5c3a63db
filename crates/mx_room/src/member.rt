ghost use Rattle.std.specs.Prelude.{◌≡◌, codes, IfOk, option_map};
ghost use Rattle.std.specs.Option.{option_copied};
ghost use Rattle.mx_json.specs.Json.{text_at};
ghost use Rattle.mx_event.specs.Event.{content_of};
ghost use Rattle.mx_room.specs.Change.{member_set_by};
ghost use Rattle.mx_room.specs.Kept.{by_bytes};
ghost use Rattle.mx_room.specs.Members.{joins};

use mx_event::Event;
use mx_json::{JsonText, OutOfMemory};
use std::alloc::Global;

/// What the state of a room says of a user.
#[derive(Drop)]
pub struct Member {
    /// The membership, such as `join`.
    pub membership: JsonText,
    /// The display name, if any.
    pub name: Option<JsonText>,
}

impl Member {
    // Whether the membership is `join`.
    pub(crate) fn has_joined(&self) -> bool
        ensures { result ≡ joins self.now }
    {
        self.membership.as_str() == "join"
    }
}

// The user whom an event makes a member, and what it says of the user; `None` for other events.
#[tactic(auto, unfolding(crate::specs::Change::member_set_by, mx_event::specs::Event::membership_of))]
pub fn member_set_by(alloc: Global, event: &Event) -> Result<Option<(String, Member)>, OutOfMemory>
    ensures { IfOk result (λ set. option_map by_bytes set ≡ member_set_by event.now) }
{
    let Some((user, membership)) = event.membership() else {
        return Ok(None);
    };
    let user = String::from_str(alloc, user)?;
    let membership = JsonText::read(alloc, membership)?;
    let name = name_set_by(alloc, event)?;
    Ok(Some((user, Member { membership, name })))
}

// The display name that a member event tells, if any.
fn name_set_by(alloc: Global, event: &Event) -> Result<Option<JsonText>, OutOfMemory>
    ensures { IfOk result (λ name. name ≡ text_at (codes "displayname") (content_of event.now)) }
{
    match event.content().text_at("displayname") {
        Some(name) => Ok(Some(JsonText::read(alloc, name)?)),
        None => Ok(None),
    }
}
