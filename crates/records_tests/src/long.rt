//! An input that is too long to be kept, which no line can give: it is made of a text and prepared.

ghost use Rattle.std.specs.Prelude.{◌≡◌, true};
ghost use Rattle.mx_json.specs.Json.{is_valid};
ghost use Rattle.mx_records.specs.Normal.{IsNormal};
ghost use Rattle.mx_records.specs.Rules.{is_valid_input};

use mx_engine::{Engine, PrepareError, Refusal};
use mx_json::Json;
use mx_records::Input;
use mx_rows::PlainRows;
use std::alloc::Global;
use std::process::Abort;

#[test]
fn an_event_with_a_long_text_is_too_long(rt: HostRuntime) {
    assert!(rt; !is_too_long(&rt, rt.alloc(), 200_000));
    assert!(rt; is_too_long(&rt, rt.alloc(), 300_000));
}

/// Whether an event whose body has so many bytes is refused as too long.
fn is_too_long(rt: &impl Abort, alloc: Global, length: usize) -> bool {
    match Input::from_json(alloc, event(rt, alloc, length)) {
        Ok(input) => is_refused(rt, alloc, &input),
        Err(_) => rt.panic("no input"),
    }
}

/// An event whose body has so many bytes.
fn event(rt: &impl Abort, alloc: Global, length: usize) -> Json
    ensures { is_valid result ≡ true }
{
    let text = format!(in alloc;
        r#"{{"cmd":"event","event":{{"content":{{"body":"{:x>length$}"}},"event_id":"$1","room_id":"!r","sender":"@a:b","type":"m.room.message"}}}}"#,
        ""
    )
    .expect(rt, "an event's text");
    match Json::from_text(alloc, text.as_bytes(), 100) {
        Ok(json) => json,
        Err(_) => rt.panic("no JSON"),
    }
}

fn is_refused(rt: &impl Abort, alloc: Global, input: &Input) -> bool
    requires valid { is_valid_input input.now ≡ true }
    requires normal { IsNormal input.now }
{
    let mut engine: Engine<PlainRows> = Engine::new(alloc, "example.org").expect(rt, "an engine");
    match input {
        Input::Event(_) => {
            engine.prepare(alloc, input).err() == Some(PrepareError::Refused(Refusal::EntryTooLong))
        }
        _ => rt.panic("no event"),
    }
}
