//! What lines are read as.

use super::read;
use crate::{Command, LONGEST_LINE, LineError, LineRefusal};
use mx_records::Input;
use mx_rule::Edit;
use std::alloc::Global;

/// The word of a command, or the name of the first wrong field.
fn read_as(alloc: Global, line: &str) -> &'static str {
    if line.len() > LONGEST_LINE {
        return "LineTooLong";
    }
    match read(alloc, line.as_bytes()) {
        Ok(command) => word_of(&command),
        Err(LineError::Refused(LineRefusal::BadField(field))) => field.name(),
        Err(LineError::Refused(LineRefusal::NotBuilt)) => "NotBuilt",
        Err(_) => "no object",
    }
}

fn word_of(command: &Command) -> &'static str {
    match command {
        Command::Input(Input::Event(_)) => "event",
        Command::Input(Input::Edit { edit, .. }) => word_of_edit(edit),
        Command::Input(Input::Receipt { thread: None, .. }) => "receipt of a room",
        Command::Input(Input::Receipt { .. }) => "receipt of a thread",
        Command::Input(Input::Pusher(_)) => "pusher",
        Command::Counts { threads: true, .. } => "counts, thread by thread",
        Command::Counts { threads: false, .. } => "counts in sum",
        Command::Rules { .. } => "rules",
    }
}

fn word_of_edit(edit: &Edit) -> &'static str {
    match edit {
        Edit::Put { .. } => "rule_put",
        Edit::Delete { .. } => "rule_delete",
        Edit::Enable { .. } => "rule_enable",
        Edit::SetActions { .. } => "rule_actions",
    }
}

/// The first of these lines that is read otherwise than as what stands beside it.
fn read_otherwise(alloc: Global, rows: &[(&'static str, &'static str)]) -> Option<&'static str> {
    for (line, expected) in rows {
        if read_as(alloc, line) != *expected {
            return Some(line);
        }
    }
    None
}

#[test]
fn what_lines_are_read_as(rt: HostRuntime) {
    assert_eq!(rt; read_otherwise(rt.alloc(), &READ_AS), None);
}

#[rattlefmt::skip]
static READ_AS: [(&str, &str); 27] = [
    (r#"{"cmd":"event","event":{"content":{},"event_id":"$1","room_id":"!r","sender":"@a:b","type":"t"}}"#, "event"),
    (r#"{"cmd":"rule_put","user":"@a:b","kind":"content","rule_id":"cake","actions":["notify"],"pattern":"cake"}"#, "rule_put"),
    (r#"{"cmd":"rule_put","user":"@a:b","kind":"override","rule_id":"r1","actions":[],"before":"r2","after":"r3"}"#, "rule_put"),
    (r#"{"cmd":"rule_put","user":"@a:b","kind":"content","rule_id":"cake","actions":[],"conditions":{}}"#, "conditions"),
    (r#"{"cmd":"rule_delete","user":"@a:b","kind":"room","rule_id":"!r"}"#, "rule_delete"),
    (r#"{"cmd":"rule_delete","user":"@a:b","kind":"rooms","rule_id":"!r"}"#, "kind"),
    (r#"{"cmd":"rule_enable","user":"@a:b","kind":"sender","rule_id":"@c:d","enabled":false}"#, "rule_enable"),
    (r#"{"cmd":"rule_enable","user":"@a:b","kind":"sender","rule_id":"@c:d","enabled":"no"}"#, "enabled"),
    (r#"{"cmd":"rule_actions","user":"@a:b","kind":"underride","rule_id":".m.rule.call","actions":[]}"#, "rule_actions"),
    (r#"{"cmd":"rule_actions","user":"a","kind":"underride","rule_id":".m.rule.call"}"#, "user"),
    (r#"{"cmd":"counts","room_id":"!r","user":"@a:b"}"#, "counts, thread by thread"),
    (r#"{"cmd":"counts","room_id":"!r","threads":true,"user":"@a:b"}"#, "counts, thread by thread"),
    (r#"{"cmd":"counts","room_id":"!r","threads":false,"user":"@a:b"}"#, "counts in sum"),
    (r#"{"cmd":"rules","user":"@a:b"}"#, "rules"),
    (r#"{"cmd":"rules","user":"a:b"}"#, "user"),
    (r#"{"cmd":"rules"}"#, "user"),
    (r#"{"cmd":"receipt","user":"@a:b","room_id":"!r","event_id":"$1","type":"m.read"}"#, "receipt of a room"),
    (r#"{"cmd":"receipt","user":"@a:b","room_id":"!r","event_id":"$1","type":"m.read.private","thread_id":"main"}"#,
        "receipt of a thread"),
    (r#"{"cmd":"receipt","user":"@a:b","room_id":"!r","event_id":"$2","type":"m.read","thread_id":"$1"}"#, "receipt of a thread"),
    (r#"{"cmd":"receipt"}"#, "user"),
    (r#"{"cmd":"receipt","user":"@a:b","room_id":"r","event_id":"1"}"#, "room_id"),
    (r#"{"cmd":"receipt","user":"@a:b","room_id":"!r","event_id":"1","type":"m.read"}"#, "event_id"),
    (r#"{"cmd":"receipt","user":"@a:b","room_id":"!r","event_id":"$1","type":"m.fully_read","thread_id":"none"}"#, "type"),
    (r#"{"cmd":"receipt","user":"@a:b","room_id":"!r","event_id":"$1","type":"m.read","thread_id":"thread"}"#, "thread_id"),
    (r#"{"cmd":"receipt","user":"@a:b","room_id":"!r","event_id":"$1","type":"m.read","thread_id":null}"#, "thread_id"),
    (r#"{"cmd":"pusher","user":"@a:b"}"#, "NotBuilt"),
    (r#"{"cmd":"rule","user":"@a:b"}"#, "cmd"),
];
