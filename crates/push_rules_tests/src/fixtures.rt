//! Values that tests are made of. A text that can't be read ends the test.
ghost use Rattle.std.specs.Prelude.{◌≡◌, true};
ghost use Rattle.std.specs.List.{list_all};
ghost use Rattle.mx_json.specs.Json.{is_valid};

use mx_cond::PowerTable;
use mx_event::Event;
use mx_json::{Json, JsonList};
use std::alloc::Global;
use std::process::Abort;

/// The value that a text is.
pub(crate) fn json(rt: &impl Abort, alloc: Global, text: &str) -> Json
    ensures { is_valid result ≡ true }
{
    match Json::from_text(alloc, text.as_bytes(), 100) {
        Ok(json) => json,
        Err(_) => rt.panic(text),
    }
}

/// The list that a text is.
pub(crate) fn list(rt: &impl Abort, alloc: Global, text: &str) -> JsonList
    ensures { list_all is_valid result.items ≡ true }
{
    match json(rt, alloc, text) {
        Json::List(list) => list,
        _ => rt.panic(text),
    }
}

/// The event that a text is.
pub(crate) fn event(rt: &impl Abort, alloc: Global, text: &str) -> Event {
    Event::from_json(alloc, json(rt, alloc, text)).expect(rt, text)
}

/// The powers of a room with this content of its power levels.
pub(crate) fn powers(rt: &impl Abort, alloc: Global, content: Option<&str>) -> PowerTable {
    match content {
        Some(text) => PowerTable::of(alloc, Some(&json(rt, alloc, text))).expect(rt, text),
        None => PowerTable::of(alloc, None).expect(rt, "no power levels"),
    }
}

/// The canonical text of a value.
pub(crate) fn canonical(rt: &impl Abort, alloc: Global, value: &Json) -> Vec<u8>
    requires { is_valid value.now ≡ true }
{
    let mut text = Vec::new(alloc);
    value.canonical_into(alloc, &mut text).expect(rt, "a text");
    text
}
