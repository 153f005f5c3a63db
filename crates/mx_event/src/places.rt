//! Where what is asked of an event again and again stands in it, so that it is looked for once.

ghost use Rattle.std.specs.Prelude.{◌≡◌, true, codes};
ghost use Rattle.std.specs.Option.{option_copied};
ghost use Rattle.mx_json.specs.Json.{is_valid, member};
ghost use Rattle.mx_event.specs.Event.{content_of, has_mentions, ArePlacesIn};
ghost use Rattle.mx_event.specs.Place.{member_placed};
ghost use Rattle.mx_event.specs.Property.{member_within, placed_within, AreContentPlaces};

use mx_json::Json;

/// Places among the members of an event, none where there is no such member.
#[derive(Clone, Copy, Debug)]
pub struct Places {
    pub kind: Option<usize>,
    pub content: Option<usize>,
    pub state_key: Option<usize>,
    pub in_content: ContentPlaces,
    pub has_mentions: bool,
    pub has_ascii_kind: bool,
}

/// Places among the members of an event's content, and of what those hold, none where there is no
/// such member.
#[derive(Clone, Copy, Debug)]
pub struct ContentPlaces {
    pub body: Option<usize>,
    pub message_type: Option<usize>,
    pub membership: Option<usize>,
    pub mentions: Option<usize>,
    pub mentioned_users: Option<usize>,
    pub mentions_room: Option<usize>,
    pub relates_to: Option<usize>,
    pub relation_type: Option<usize>,
}

pub fn places_in(json: &Json) -> Places
    requires { is_valid json.now ≡ true }
    ensures { ArePlacesIn json.now result }
{
    Places {
        kind: place_in(json, "type"),
        content: place_in(json, "content"),
        state_key: place_in(json, "state_key"),
        in_content: places_in_the_content(json),
        has_mentions: has_mentions(json),
        has_ascii_kind: json.text_or_empty("type").is_ascii(),
    }
}

fn places_in_the_content(json: &Json) -> ContentPlaces
    requires { is_valid json.now ≡ true }
    ensures { AreContentPlaces (content_of json.now) result }
{
    match json.member("content") {
        Some(content) => content_places(content),
        None => content_places(&Json::Null),
    }
}

fn content_places(content: &Json) -> ContentPlaces
    requires { is_valid content.now ≡ true }
    ensures { AreContentPlaces content.now result }
{
    let mentions = place_in(content, "m.mentions");
    let relates_to = place_in(content, "m.relates_to");
    ContentPlaces {
        body: place_in(content, "body"),
        message_type: place_in(content, "msgtype"),
        membership: place_in(content, "membership"),
        mentions,
        mentioned_users: place_within(content, mentions, "m.mentions", "user_ids"),
        mentions_room: place_within(content, mentions, "m.mentions", "room"),
        relates_to,
        relation_type: place_within(content, relates_to, "m.relates_to", "rel_type"),
    }
}

fn place_in(json: &Json, key: &str) -> Option<usize>
    requires { is_valid json.now ≡ true }
    ensures { member_placed result json.now ≡ member key.now json.now }
{
    json.place_of(key)
}

// The place of the member with this key in the member at a place, whose key is `outer`.
fn place_within(json: &Json, place: Option<usize>, outer: &str, key: &str) -> Option<usize>
    requires valid { is_valid json.now ≡ true }
    requires outer { member_placed place json.now ≡ member outer.now json.now }
    ensures { placed_within place result json.now ≡ member_within outer.now key.now json.now }
{
    place_in(member_placed(json, place)?, key)
}

fn has_mentions(json: &Json) -> bool
    requires { is_valid json.now ≡ true }
    ensures { result ≡ has_mentions json.now }
{
    match json.member("content") {
        Some(content) => content.member("m.mentions").is_some(),
        None => false,
    }
}

// The member at a place that may be none.
#[inline]
pub fn member_placed(json: &Json, place: Option<usize>) -> Option<&Json>
    ensures { option_copied result ≡ member_placed place json.now }
{
    json.member_at(place?)
}

// The member at a place of the member at another.
#[inline]
pub fn placed_within(json: &Json, outer: Option<usize>, place: Option<usize>) -> Option<&Json>
    ensures { option_copied result ≡ placed_within outer place json.now }
{
    member_placed(member_placed(json, outer)?, place)
}
