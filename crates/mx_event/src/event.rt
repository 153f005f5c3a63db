ghost use Rattle.std.specs.Prelude.{◌≡◌, true, codes, IfOk, IsAscii, MatchBool, option_map};
ghost use Rattle.std.specs.Option.{option_copied};
ghost use Rattle.std.specs.Str.{IsNotAscii};
ghost use Rattle.mx_json.specs.Gives.{Gives};
ghost use Rattle.mx_json.specs.Json.{is_valid, text_at};
ghost use Rattle.mx_json.specs.Path.{look};
ghost use Rattle.mx_event.specs.Event.{body_of, content_of, event_id_of, has_mentions, is_event};
ghost use Rattle.mx_event.specs.Event.{kind_of, membership_of, read_event, related_by, relation_of};
ghost use Rattle.mx_event.specs.Event.{room_id_of, sender_of, state_key_of, told_membership};
ghost use Rattle.mx_event.specs.Property.{path_of};

use crate::error::EventError;
use crate::fields::{event_id_in, first_wrong_after_the_ids, room_id_in, sender_in};
use crate::places::{Places, member_placed, placed_within, places_in};
use crate::property::Property;
use crate::relation::{Relation, relation_in};
use mx_json::{EventId, Json, OutOfMemory, RoomId, UserId};
use std::alloc::Global;
use std::marker::Model;

/// An event of a room, seen as the whole JSON object that it was made from.
#[derive(Drop)]
pub struct Event {
    json: Json,
    event_id: EventId,
    room_id: RoomId,
    sender: UserId,
    places: Places,
}

impl Model for Event {
    ghost use Rattle.mx_json.specs.declared.value.Json.{Json};

    ghost Value = { Json };

    ghost use Rattle.mx_json.specs.contracts.value.Json as whole;
    ghost use Rattle.std.specs.Coded.{codes};

    ghost coded = { Prim.hlevel (codes, whole.the_row.coded) };

    ghost use Rattle.mx_event.specs.Event.{HoldsEvent};

    ghost view = { λ event. event.json };

    ghost invariant = { λ event.
        HoldsEvent event.json event.event_id event.room_id event.sender event.places };
}

impl Event {
    /// The event that a JSON value is.
    ///
    /// # Errors
    ///
    /// `BadEvent` with the first field that is missing or wrong, in the order of `EventField`; what
    /// is no object has a wrong `event_id`. `OutOfMemory` where the allocator has none.
    pub fn from_json(alloc: Global, json: Json) -> Result<Event, EventError>
        requires { is_valid json ≡ true }
        ensures { Gives EventError.OutOfMemory result (read_event json) }
    {
        let event_id = event_id_in(alloc, &json)?;
        let room_id = room_id_in(alloc, &json)?;
        let sender = sender_in(alloc, &json)?;
        if let Some(field) = first_wrong_after_the_ids(&json) {
            return Err(EventError::BadEvent(field));
        }
        let places = places_in(&json);
        Ok(Event {
            json,
            event_id,
            room_id,
            sender,
            places,
        })
    }

    /// The event's id.
    pub fn event_id(&self) -> &EventId
        ensures { result.now ≡ event_id_of self.now }
    {
        &self.event_id
    }

    /// The id of its room.
    pub fn room_id(&self) -> &RoomId
        ensures { result.now ≡ room_id_of self.now }
    {
        &self.room_id
    }

    /// Who sent it.
    pub fn sender(&self) -> &UserId
        ensures { result.now ≡ sender_of self.now }
    {
        &self.sender
    }

    /// Its type, of at most 255 bytes.
    pub fn kind(&self) -> &str
        ensures { result.now ≡ kind_of self.now }
    {
        match self.kind_text() {
            Some(kind) => kind,
            None => "",
        }
    }

    /// Whether its type is ASCII, which is known at once.
    pub fn has_ascii_kind(&self) -> bool
        ensures { MatchBool result (IsAscii (kind_of self.now)) (IsNotAscii (kind_of self.now)) }
    {
        self.places.has_ascii_kind
    }

    fn kind_text(&self) -> Option<&str>
        ensures { option_copied result ≡ text_at (codes "type") self.now }
    {
        member_placed(&self.json, self.places.kind)?.as_text()
    }

    /// Its content, an object.
    pub fn content(&self) -> &Json
        ensures content { result.now ≡ content_of self.now }
        ensures valid { is_valid result.now ≡ true }
    {
        match member_placed(&self.json, self.places.content) {
            Some(content) => content,
            None => unreachable!(),
        }
    }

    /// The state key of a state event, of at most 255 bytes; `None` exactly for other events.
    pub fn state_key(&self) -> Option<&str>
        ensures { option_copied result ≡ state_key_of self.now }
    {
        member_placed(&self.json, self.places.state_key)?.as_text()
    }

    /// The body of a message, `content.body`; `None` exactly where that isn't a text.
    pub fn body(&self) -> Option<&str>
        ensures { option_copied result ≡ body_of self.now }
    {
        member_placed(self.content(), self.places.in_content.body)?.as_text()
    }

    /// Whether its content has the key `m.mentions` (Client-Server API, 'User and room mentions').
    pub fn has_mentions(&self) -> bool
        ensures { result ≡ has_mentions self.now }
    {
        self.places.has_mentions
    }

    /// The value of a property; `None` exactly where there is none. It is found at once.
    pub fn property(&self, property: Property) -> Option<&Json>
        ensures { option_copied result ≡ look (path_of property) self.now }
    {
        let places = &self.places.in_content;
        match property {
            Property::Kind => member_placed(&self.json, self.places.kind),
            Property::StateKey => member_placed(&self.json, self.places.state_key),
            Property::Body => member_placed(self.content(), places.body),
            Property::MessageType => member_placed(self.content(), places.message_type),
            Property::Membership => member_placed(self.content(), places.membership),
            Property::MentionedUsers => {
                placed_within(self.content(), places.mentions, places.mentioned_users)
            }
            Property::MentionsRoom => {
                placed_within(self.content(), places.mentions, places.mentions_room)
            }
            Property::RelationType => {
                placed_within(self.content(), places.relates_to, places.relation_type)
            }
        }
    }

    /// The whole object.
    pub fn json(&self) -> &Json
        ensures whole { result.now ≡ self.now }
        ensures valid { is_valid self.now ≡ true }
        ensures event { is_event self.now ≡ true }
    {
        &self.json
    }

    /// What the `m.relates_to` of its content says (Client-Server API, 'Forming relationships
    /// between events').
    #[tactic(auto, unfolding(crate::specs::Event::relation_of))]
    pub fn relation(&self) -> Relation<'_>
        ensures { related_by result ≡ relation_of self.now }
    {
        match self.content().member("m.relates_to") {
            Some(relates_to) => relation_in(relates_to),
            None => Relation::Nothing,
        }
    }

    /// The state key and the membership of a state event `m.room.member`: `content.membership`
    /// where that is a text, else `leave`. `None` exactly for other events.
    #[tactic(auto, unfolding(crate::specs::Event::membership_of))]
    pub fn membership(&self) -> Option<(&str, &str)>
        ensures { option_map (λ told. (told.0.now, told.1.now)) result ≡ membership_of self.now }
    {
        if self.kind() != "m.room.member" {
            return None;
        }
        let user = self.state_key()?;
        Some((user, self.told_membership()))
    }

    fn told_membership(&self) -> &str
        ensures { result.now ≡ told_membership self.now }
    {
        match self.content().text_at("membership") {
            Some(membership) => membership,
            None => "leave",
        }
    }

    /// An equal event of its own.
    ///
    /// # Errors
    ///
    /// `OutOfMemory` where the allocator has none.
    pub fn copied(&self, alloc: Global) -> Result<Event, OutOfMemory>
        ensures { IfOk result (λ event. event ≡ self.now) }
    {
        Ok(Event {
            json: self.json.copied(alloc)?,
            event_id: self.event_id.copied(alloc)?,
            room_id: self.room_id.copied(alloc)?,
            sender: self.sender.copied(alloc)?,
            places: self.places,
        })
    }
}
