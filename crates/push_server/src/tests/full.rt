//! The millionth input, over the engine: edits of one rule, which keep nothing of what they were.

ghost use Rattle.mx_lines.specs.Commands.{IsReadyInput};

use mx_engine::{Engine, PrepareError, Refusal};
use mx_lines::{Command, read};
use mx_records::Input;
use mx_rows::PlainRows;
use std::alloc::Global;
use std::process::Abort;

#[test]
fn the_millionth_input_is_the_last(rt: HostRuntime) {
    assert!(rt; is_full_at(&rt, rt.alloc(), 1_000_000));
}

/// Whether an engine accepts one edit so often, and then refuses it because its history is full.
fn is_full_at(rt: &impl Abort, alloc: Global, times: u64) -> bool {
    let line =
        br#"{"cmd":"rule_enable","enabled":true,"kind":"override","rule_id":".m.rule.master","user":"@b:example.org"}"#;
    match read(alloc, line) {
        Ok(Command::Input(input)) => is_full_after(rt, alloc, &input, times),
        _ => false,
    }
}

fn is_full_after(rt: &impl Abort, alloc: Global, input: &Input, times: u64) -> bool
    requires { IsReadyInput input.now }
{
    let mut engine: Engine<PlainRows> = Engine::new(alloc, "example.org").expect(rt, "an engine");
    for _ in 0..times {
        if !is_accepted(alloc, &mut engine, input) {
            return false;
        }
    }
    engine.prepare(alloc, input).err() == Some(PrepareError::Refused(Refusal::Full))
}

fn is_accepted(alloc: Global, engine: &mut Engine<PlainRows>, input: &Input) -> bool
    requires { IsReadyInput input.now }
{
    match engine.prepare(alloc, input) {
        Ok(plan) => {
            engine.apply(plan);
            true
        }
        Err(_) => false,
    }
}
