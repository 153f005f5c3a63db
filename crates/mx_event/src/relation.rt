ghost use Rattle.std.specs.Prelude.{◌≡◌, true};
ghost use Rattle.mx_json.specs.Json.{is_valid};
ghost use Rattle.mx_event.specs.Event.{related_by, relation_in};

use mx_json::{Json, is_event_id};

/// How an event relates to another.
#[derive(Clone, Copy, Debug)]
pub enum Relation<'a> {
    /// It is in the thread of the event with this id.
    Thread(&'a str),
    /// It relates otherwise to the event with this id, which may be no event id.
    Other(&'a str),
    /// It doesn't relate to another.
    Nothing,
}

// What an `m.relates_to` says.
pub fn relation_in(relates_to: &Json) -> Relation<'_>
    requires { is_valid relates_to.now ≡ true }
    ensures { related_by result ≡ relation_in relates_to.now }
{
    let Some(kind) = relates_to.text_at("rel_type") else {
        return Relation::Nothing;
    };
    let Some(id) = relates_to.text_at("event_id") else {
        return Relation::Nothing;
    };
    if kind != "m.thread" {
        return Relation::Other(id);
    }
    if is_event_id(id) {
        Relation::Thread(id)
    } else {
        Relation::Nothing
    }
}
