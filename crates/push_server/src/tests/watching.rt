//! Sources and sinks that watch how the loop calls them:
//! what no clause can say of the order of calls.

ghost use Rattle.std.specs.Prelude.{◌≡◌, ◌≤◌};
ghost use Rattle.mx_outside.specs.Told.{Rose};

use super::fixtures::{serve_words, sink, source_of};
use crate::status::Status;
use mx_outside::{FailingSink, FailingSource, Got, Put, Sink, Source};
use std::alloc::Global;
use std::cell::Cell;
use std::process::Abort;

/// A source that gives one line a call, each only where all lines before it have their replies.
#[derive(Drop)]
struct OneByOne<'a> {
    lines: &'a [&'a str],
    given: usize,
    replied: &'a Cell<usize>,
    largest: usize,
    faults: u64,
}

impl<'a> OneByOne<'a> {
    fn fail(&mut self) -> Got
        ensures fails { result ≡ Got.Failed }
        ensures counts { Rose self.old.faults self.new.faults }
        ensures rises { self.old.faults ≤ self.new.faults }
    {
        self.faults = self.faults.saturating_add(1);
        Got::Failed
    }
}

impl<'a> Source for OneByOne<'a> {
    ghost use Rattle.std.specs.Prelude.{false, None};

    ghost left = { λ _. None };

    ghost faults = { λ source. source.faults };

    ghost never_fails = { λ _. false };

    fn read(&mut self, into: &mut [u8]) -> Got {
        self.largest = self.largest.max(into.len());
        if self.replied.get() < self.given {
            return self.fail();
        }
        let Some(line) = self.lines.get(self.given) else {
            return Got::End;
        };
        let bytes = line.as_bytes();
        if bytes.is_empty() || bytes.len() > into.len() {
            return self.fail();
        }
        into[..bytes.len()].copy_from_slice(bytes);
        let count = bytes.len();
        self.given = self.given.saturating_add(1);
        Got::Bytes(count)
    }
}

/// A sink that counts the line feeds that it takes.
#[derive(Drop)]
struct CountsReplies<'a> {
    replied: &'a Cell<usize>,
}

impl<'a> Sink for CountsReplies<'a> {
    ghost use Rattle.std.specs.Prelude.{None};
    ghost use Rattle.mx_outside.specs.Budget.{no_budget};

    ghost taken = { λ _. None };

    ghost faults = { λ _. 0 };

    ghost budget = { λ _. no_budget };

    fn write(&mut self, piece: &[u8]) -> Put {
        let feeds = piece.iter().filter(|byte| **byte == b'\n').count();
        self.replied.set(self.replied.get().saturating_add(feeds));
        Put::Moved(piece.len())
    }
}

/// Three lines, each with its line feed.
#[rattlefmt::skip]
static THREE_LINES: [&str; 3] = [
    "{\"cmd\":\"event\",\"event\":{\"content\":{},\"event_id\":\"$1\",\"room_id\":\"!r:example.org\",\"sender\":\"@a:example.org\",\"type\":\"m.room.message\"}}\n",
    "{\"cmd\":\"counts\",\"room_id\":\"!r:example.org\",\"user\":\"@b:example.org\"}\n",
    "{\"cmd\":\"event\",\"event\":{\"content\":{},\"event_id\":\"$2\",\"room_id\":\"!r:example.org\",\"sender\":\"@a:example.org\",\"type\":\"m.room.message\"}}\n",
];

#[test]
fn each_line_is_answered_before_the_next_read(rt: HostRuntime) {
    // Three replies, and a read asks for 65,536 bytes at the most.
    assert_eq!(rt; watch(&rt, rt.alloc()), (Status::Done, 3, 65_536));
}

/// How serving three lines ends, how many replies it writes,
/// and the most bytes that a read asks for.
fn watch(rt: &impl Abort, alloc: Global) -> (Status, usize, usize) {
    let replied = Cell::new(0);
    let mut source = OneByOne {
        lines: &THREE_LINES,
        given: 0,
        replied: &replied,
        largest: 0,
        faults: 0,
    };
    let mut sink = CountsReplies { replied: &replied };
    let status = serve_words(rt, alloc, &mut source, &mut sink);
    (status, replied.get(), source.largest)
}

/// A source or a sink whose calls are counted.
#[derive(Drop)]
struct Counted<T> {
    below: T,
    calls: u64,
}

impl<S: Source> Source for Counted<S> {
    ghost left = { λ source. S.left source.below };

    ghost faults = { λ source. S.faults source.below };

    ghost never_fails = { λ source. S.never_fails source.below };

    fn read(&mut self, into: &mut [u8]) -> Got {
        self.calls = self.calls.saturating_add(1);
        self.below.read(into)
    }
}

impl<K: Sink> Sink for Counted<K> {
    ghost taken = { λ sink. K.taken sink.below };

    ghost faults = { λ sink. K.faults sink.below };

    ghost budget = { λ sink. K.budget sink.below };

    fn write(&mut self, piece: &[u8]) -> Put {
        self.calls = self.calls.saturating_add(1);
        self.below.write(piece)
    }
}

#[test]
fn the_first_fault_ends_the_run(rt: HostRuntime) {
    assert_eq!(rt; reads_to_fault(&rt, rt.alloc()), (Status::ReadFault, 2));
    assert_eq!(rt; writes_to_fault(&rt, rt.alloc()), (Status::WriteFault, 2));
}

const INPUT: &[u8] = b"{}\n{}\n{}\n";

/// How a run ends whose second read fails, and how many reads it makes.
fn reads_to_fault(rt: &impl Abort, alloc: Global) -> (Status, u64) {
    let bytes = source_of(rt, alloc, INPUT, 3);
    let mut source = Counted {
        below: FailingSource::new(bytes, [2].to_vec(alloc).expect(rt, "a call")),
        calls: 0,
    };
    let status = keep_output(rt, alloc, &mut source);
    (status, source.calls)
}

fn keep_output<S: Source>(rt: &impl Abort, alloc: Global, source: &mut S) -> Status {
    let mut sink = sink(rt, alloc);
    serve_words(rt, alloc, source, &mut sink)
}

/// How a run ends whose second write fails, and how many writes it makes.
fn writes_to_fault(rt: &impl Abort, alloc: Global) -> (Status, u64) {
    let mut sink = Counted {
        below: FailingSink::new(sink(rt, alloc), [2].to_vec(alloc).expect(rt, "a call")),
        calls: 0,
    };
    let status = take_input(rt, alloc, &mut sink);
    (status, sink.calls)
}

fn take_input<K: Sink>(rt: &impl Abort, alloc: Global, sink: &mut K) -> Status {
    let mut source = source_of(rt, alloc, INPUT, 0);
    serve_words(rt, alloc, &mut source, sink)
}
