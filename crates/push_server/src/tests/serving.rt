//! Whole runs of the program, from the bytes that come in to the bytes that go out.

use super::fixtures::{
    Script, front_of, is_served, memory, run_words, script_of, serve_from, serve_words, sink,
    source_of,
};
use crate::serve::serve_within;
use crate::status::Status;
use mx_outside::{FailingSink, FailingSource, Put, RepeatSource, Sink, Source};
use std::alloc::Global;
use std::process::Abort;

const NO_COMMAND: &str = r#"= {"error":"BadField","field":"cmd"}"#;

const TOO_LONG: &str = r#"= {"error":"LineTooLong"}"#;

/// Two join, one writes, and both are asked about; then the message comes again.
#[rattlefmt::skip]
static FIRST_MESSAGES: [(&str, &str); 8] = [
    (
        r#"{"cmd":"event","event":{"content":{"membership":"join"},"event_id":"$1","room_id":"!r:example.org","sender":"@a:example.org","state_key":"@a:example.org","type":"m.room.member"}}"#,
        r#"= {"ok":1}"#,
    ),
    (
        r#"{"cmd":"event","event":{"content":{"membership":"join"},"event_id":"$2","room_id":"!r:example.org","sender":"@b:example.org","state_key":"@b:example.org","type":"m.room.member"}}"#,
        r#"= {"ok":2}"#,
    ),
    (
        r#"{"cmd":"event","event":{"content":{"body":"hi","msgtype":"m.text"},"event_id":"$3","room_id":"!r:example.org","sender":"@a:example.org","type":"m.room.message"}}"#,
        r#"= {"ok":3}"#,
    ),
    (
        r#"{"cmd":"counts","room_id":"!r:example.org","user":"@b:example.org"}"#,
        r#"= {"highlight_count":0,"notification_count":1,"threads":{}}"#,
    ),
    (
        r#"{"cmd":"counts","room_id":"!r:example.org","user":"@a:example.org"}"#,
        r#"= {"highlight_count":0,"notification_count":0,"threads":{}}"#,
    ),
    (
        r#"{"cmd":"event","event":{"content":{"body":"hi","msgtype":"m.text"},"event_id":"$3","room_id":"!r:example.org","sender":"@a:example.org","type":"m.room.message"}}"#,
        r#"= {"error":"KnownEvent","position":3}"#,
    ),
    (
        r#"{"cmd":"counts","room_id":"!r:example.org","user":"@b:example.org"}"#,
        r#"= {"highlight_count":0,"notification_count":1,"threads":{}}"#,
    ),
    (
        r#"{"cmd":"counts","room_id":"!r:example.org","user":"@a:example.org"}"#,
        r#"= {"highlight_count":0,"notification_count":0,"threads":{}}"#,
    ),
];

#[test]
fn two_join_and_one_message(rt: HostRuntime) {
    for size in [0, 1, 7, 100] {
        assert!(rt;
            answers_first_messages(&rt, rt.alloc(), size),
            "in pieces of {size}"
        );
    }
}

fn answers_first_messages(rt: &impl Abort, alloc: Global, size: usize) -> bool {
    let script = script_of(rt, alloc, &FIRST_MESSAGES);
    is_served(rt, alloc, &script, size)
}

#[test]
fn an_input_without_bytes_and_a_line_without_its_end(rt: HostRuntime) {
    for (input, output) in [
        ("", ""),
        ("\n", "= {\"error\":\"BadLine\"}\n"),
        ("[1]", "= {\"error\":\"BadField\",\"field\":\"cmd\"}\n"),
        (
            "{}\r\n{",
            "= {\"error\":\"BadField\",\"field\":\"cmd\"}\n= {\"error\":\"BadLine\"}\n",
        ),
    ] {
        assert_eq!(rt;
            serve_bytes(&rt, rt.alloc(), input, output),
            (Status::Done, Some(output.len())),
            "{input}"
        );
    }
}

fn serve_bytes(
    rt: &impl Abort,
    alloc: Global,
    input: &str,
    output: &str,
) -> (Status, Option<usize>) {
    let mut source = source_of(rt, alloc, input.as_bytes(), 0);
    serve_from(rt, alloc, &mut source, output.as_bytes())
}

const LONG: &str =
    r#"{"cmd":"event","event":{"content":{},"event_id":"$long","room_id":"!r:example.org","sender":"@a:example.org","type":"m.room.message"}}"#;

/// Lines around the longest one. The last has no end.
fn long_lines(rt: &impl Abort, alloc: Global) -> Script {
    let mut script = Script::new(alloc);
    script.say_padded(rt, alloc, LONG, 131_073, TOO_LONG);
    script.say_padded(rt, alloc, LONG, 300_000, TOO_LONG);
    script.say_padded(rt, alloc, LONG, 131_072, "= {\"ok\":1}");
    script.say(rt, b"{}\r", NO_COMMAND);
    script.say_padded(rt, alloc, LONG, 131_073, TOO_LONG);
    let _ = script.input.pop();
    script
}

#[test]
fn long_lines_in_any_pieces(rt: HostRuntime) {
    for size in [1, 65_536, 131_073] {
        assert!(rt;
            answers_long_lines(&rt, rt.alloc(), size),
            "in pieces of {size}"
        );
    }
}

fn answers_long_lines(rt: &impl Abort, alloc: Global, size: usize) -> bool {
    let script = long_lines(rt, alloc);
    is_served(rt, alloc, &script, size)
}

#[test]
fn a_read_fault_at_each_call(rt: HostRuntime) {
    // Ten pieces of the input, its end, and a call that isn't made.
    for (call, taken, status) in [
        (1, 0, Status::ReadFault),
        (2, 100, Status::ReadFault),
        (3, 200, Status::ReadFault),
        (4, 300, Status::ReadFault),
        (5, 400, Status::ReadFault),
        (6, 500, Status::ReadFault),
        (7, 600, Status::ReadFault),
        (8, 700, Status::ReadFault),
        (9, 800, Status::ReadFault),
        (10, 900, Status::ReadFault),
        (11, 1000, Status::ReadFault),
        (12, 1000, Status::Done),
    ] {
        assert!(rt;
            ends_at_fault(&rt, rt.alloc(), call, taken, status),
            "at call {call}"
        );
    }
}

/// Whether it ends so where this call fails,
/// with the replies to the lines that end in so many bytes.
fn ends_at_fault(rt: &impl Abort, alloc: Global, call: u64, taken: usize, status: Status) -> bool {
    let script = script_of(rt, alloc, &FIRST_MESSAGES);
    serve_to_fault(rt, alloc, &script, call) == (status, Some(script.replied(taken)))
}

fn serve_to_fault(
    rt: &impl Abort,
    alloc: Global,
    script: &Script,
    call: u64,
) -> (Status, Option<usize>) {
    let mut source = FailingSource::new(
        source_of(rt, alloc, &script.input, 100),
        [call].to_vec(alloc).expect(rt, "a call"),
    );
    serve_from(rt, alloc, &mut source, &script.output)
}

#[test]
fn the_input_limit_set_low(rt: HostRuntime) {
    // The input has 954 bytes.
    for (limit, status) in [
        (0, Status::InputLimit),
        (1, Status::InputLimit),
        (350, Status::InputLimit),
        (700, Status::InputLimit),
        (954, Status::InputLimit),
        (955, Status::Done),
        (usize::MAX, Status::Done),
    ] {
        assert!(rt;
            ends_at_limit(&rt, rt.alloc(), limit, status),
            "at the limit {limit}"
        );
    }
}

/// Whether it ends so with this limit, with the replies to the lines that end within it.
fn ends_at_limit(rt: &impl Abort, alloc: Global, limit: usize, status: Status) -> bool {
    let script = script_of(rt, alloc, &FIRST_MESSAGES);
    serve_to_limit(rt, alloc, &script, limit) == (status, Some(script.replied(limit)))
}

fn serve_to_limit(
    rt: &impl Abort,
    alloc: Global,
    script: &Script,
    limit: usize,
) -> (Status, Option<usize>) {
    let mut source = source_of(rt, alloc, &script.input, 100);
    serve_from_within(rt, alloc, limit as u64, &mut source, &script.output)
}

/// As `serve_from`, with a limit of the input in bytes.
fn serve_from_within<S: Source>(
    rt: &impl Abort,
    alloc: Global,
    limit: u64,
    source: &mut S,
    said: &[u8],
) -> (Status, Option<usize>) {
    let mut sink = sink(rt, alloc);
    let status = serve_words_within(rt, alloc, limit, source, &mut sink);
    (status, front_of(sink.taken(), said))
}

fn serve_words_within<S: Source, K: Sink>(
    rt: &impl Abort,
    alloc: Global,
    limit: u64,
    source: &mut S,
    sink: &mut K,
) -> Status {
    let words = run_words(rt, alloc);
    let mut disk = memory(rt, alloc, b"");
    serve_within(alloc, &words, limit, source, sink, &mut disk)
}

#[test]
fn a_line_without_end_is_stopped_at_the_limit(rt: HostRuntime) {
    // A line that is too long has its reply where it ends.
    let mut source = RepeatSource::new(b'x', 1 << 25);
    assert_eq!(rt;
        serve_from_within(&rt, rt.alloc(), 1 << 24, &mut source, b""),
        (Status::InputLimit, Some(0))
    );
}

/// A sink that takes three bytes a call at the most.
#[derive(Drop)]
struct Narrow<K> {
    below: K,
}

impl<K: Sink> Sink for Narrow<K> {
    ghost taken = { λ sink. K.taken sink.below };

    ghost faults = { λ sink. K.faults sink.below };

    ghost budget = { λ sink. K.budget sink.below };

    fn write(&mut self, piece: &[u8]) -> Put {
        if piece.len() > 3 {
            self.below.write(&piece[..3])
        } else {
            self.below.write(piece)
        }
    }
}

#[test]
fn a_write_fault_in_mid_line(rt: HostRuntime) {
    for call in 1..40 {
        assert!(rt; stops_at_write(&rt, rt.alloc(), call), "at call {call}");
    }
}

/// Whether a run ends at the write that fails, with a front of the replies and not all of them.
fn stops_at_write(rt: &impl Abort, alloc: Global, call: u64) -> bool {
    let script = script_of(rt, alloc, &FIRST_MESSAGES);
    match write_to_fault(rt, alloc, &script, call) {
        (Status::WriteFault, Some(length)) => length < script.output.len(),
        _ => false,
    }
}

fn write_to_fault(
    rt: &impl Abort,
    alloc: Global,
    script: &Script,
    call: u64,
) -> (Status, Option<usize>) {
    let mut source = source_of(rt, alloc, &script.input, 0);
    write_narrowly(rt, alloc, &mut source, call, &script.output)
}

/// As `serve_from`, to a sink that takes three bytes a call and fails at this call.
fn write_narrowly<S: Source>(
    rt: &impl Abort,
    alloc: Global,
    source: &mut S,
    call: u64,
    said: &[u8],
) -> (Status, Option<usize>) {
    let mut sink = Narrow {
        below: FailingSink::new(sink(rt, alloc), [call].to_vec(alloc).expect(rt, "a call")),
    };
    let status = serve_words(rt, alloc, source, &mut sink);
    (status, front_of(sink.below.below().taken(), said))
}
