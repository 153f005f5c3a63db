ghost use Rattle.std.specs.Prelude.{◌≡◌, ◌↔◌, Any, IfOk, IsTrue};
ghost use Rattle.std.specs.Option.{option_copied};
ghost use Rattle.mx_cond.specs.Facts.{told_by};
ghost use Rattle.mx_cond.specs.Holds.{wants_name, Equals, HasMember, HasText, HasValue, IsMet};
ghost use Rattle.mx_cond.specs.Holds.{MatchesAt, NamesOwner};
ghost use Rattle.mx_cond.specs.MemberCount.{IsAsAsked};

use crate::count::MemberCount;
use crate::facts::Facts;
use crate::plain::Plain;
use crate::property_path::{PropertyPath, body_of};
use crate::text_pattern::TextPattern;
use mx_event::Event;
use mx_glob::{Scratch, name_of_text};
use mx_json::{Json, JsonText, Meter, OutOfMemory};
use std::alloc::Global;

/// What a condition wants of the facts, kind by kind, ready to be tried: its path is cut into
/// segments, and its pattern is folded.
#[derive(Drop)]
pub enum Wanted {
    EventMatch(PropertyPath, TextPattern),
    EventPropertyIs(PropertyPath, Plain),
    EventPropertyContains(PropertyPath, Plain),
    RoomMemberCount(Option<MemberCount>),
    SenderNotificationPermission(JsonText),
    ContainsDisplayName,
    Unknown,
}

impl Wanted {
    /// Whether the facts are so.
    pub fn is_met(&self, facts: &Facts, scratch: &mut Scratch) -> Result<bool, OutOfMemory>
        ensures { IfOk result (λ met. IsTrue met ↔ IsMet self.now (told_by facts.now)) }
    {
        match self {
            Wanted::EventMatch(path, pattern) => {
                text_matches(facts.event, path, pattern, scratch)
            }
            Wanted::EventPropertyIs(path, value) => Ok(has_value(facts.event, path, value)),
            Wanted::EventPropertyContains(path, value) => Ok(has_member(facts.event, path, value)),
            Wanted::RoomMemberCount(asked) => Ok(is_as_asked(asked, facts.joined)),
            Wanted::SenderNotificationPermission(key) => {
                Ok(facts.powers.needed(key.as_str()) <= facts.sender_power)
            }
            Wanted::ContainsDisplayName => names_owner(facts.event, facts.owner_name, scratch),
            Wanted::Unknown => Ok(false),
        }
    }

    /// The same of its own: nothing is cut or folded again.
    pub fn copied(&self, alloc: Global) -> Result<Wanted, OutOfMemory>
        ensures { IfOk result (λ wanted. wanted ≡ self.now) }
    {
        match self {
            Wanted::EventMatch(path, pattern) => {
                let path = path.copied(alloc)?;
                Ok(Wanted::EventMatch(path, pattern.copied(alloc)?))
            }
            Wanted::EventPropertyIs(path, value) => {
                let path = path.copied(alloc)?;
                Ok(Wanted::EventPropertyIs(path, value.copied(alloc)?))
            }
            Wanted::EventPropertyContains(path, value) => {
                let path = path.copied(alloc)?;
                Ok(Wanted::EventPropertyContains(path, value.copied(alloc)?))
            }
            Wanted::RoomMemberCount(asked) => Ok(Wanted::RoomMemberCount(*asked)),
            Wanted::SenderNotificationPermission(key) => {
                Ok(Wanted::SenderNotificationPermission(key.copied(alloc)?))
            }
            Wanted::ContainsDisplayName => Ok(Wanted::ContainsDisplayName),
            Wanted::Unknown => Ok(Wanted::Unknown),
        }
    }

    /// Whether it looks at the owner's name.
    pub fn wants_name(&self) -> bool
        ensures { result ≡ wants_name self.now }
    {
        match self {
            Wanted::ContainsDisplayName => true,
            _ => false,
        }
    }
}

fn text_matches(
    event: &Event,
    path: &PropertyPath,
    pattern: &TextPattern,
    scratch: &mut Scratch,
) -> Result<bool, OutOfMemory>
    ensures { IfOk result (λ matches. IsTrue matches
        ↔ HasText path.now event.now (MatchesAt path.now pattern.now)) }
{
    let Some(text) = path.text(event) else {
        return Ok(false);
    };
    if path.is_body() {
        pattern.is_word_of(text, scratch)
    } else {
        pattern.is_whole(text, path.is_ascii(event), scratch)
    }
}

fn has_value(event: &Event, path: &PropertyPath, value: &Plain) -> bool
    ensures { IsTrue result ↔ HasValue path.now event.now value.now }
{
    match path.value(event) {
        Some(found) => value.equals(found),
        None => false,
    }
}

fn has_member(event: &Event, path: &PropertyPath, value: &Plain) -> bool
    ensures { IsTrue result ↔ HasMember path.now event.now value.now }
{
    match path.value(event) {
        Some(Json::List(list)) => is_among(list.items.as_slice(), value),
        _ => false,
    }
}

fn is_among(members: &[Json], value: &Plain) -> bool
    ensures { IsTrue result ↔ Any (Equals value.now) members.now }
{
    for member in members {
        if value.equals(member) {
            return true;
        }
    }
    false
}

fn is_as_asked(asked: &Option<MemberCount>, joined: u64) -> bool
    ensures { IsTrue result ↔ IsAsAsked asked.now joined }
{
    match asked {
        Some(count) => count.allows(joined),
        None => false,
    }
}

fn names_owner(
    event: &Event,
    owner_name: Option<&str>,
    scratch: &mut Scratch,
) -> Result<bool, OutOfMemory>
    ensures { IfOk result
        (λ names. IsTrue names ↔ NamesOwner (option_copied owner_name.entry) event.now) }
{
    let Some(name) = owner_name else {
        return Ok(false);
    };
    if name.is_empty() {
        return Ok(false);
    }
    let Some(body) = body_of(event) else {
        return Ok(false);
    };
    name_of_text(name, body, scratch, &mut Meter::new())
}
