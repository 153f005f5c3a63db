//! The lines of a run, and runs of the server on them. What can't be made ends the test.

use crate::serve::serve;
use crate::status::Status;
use mx_outside::{BytesSource, Disk, MemoryDisk, Sink, Source, VecSink};
use std::alloc::Global;
use std::process::Abort;

/// The capacity of a sink that keeps all output of a test, in bytes and in calls.
const CAPACITY: usize = 65_536;

/// The words of a command line, with a blank between each two.
pub(super) fn words(rt: &impl Abort, alloc: Global, line: &str) -> Vec<String> {
    let mut words = Vec::new(alloc);
    for word in line.split(' ') {
        words
            .push(String::from_str(alloc, word).expect(rt, line))
            .expect(rt, line);
    }
    words
}

/// The words that the server is run with.
pub(super) fn run_words(rt: &impl Abort, alloc: Global) -> Vec<String> {
    words(rt, alloc, "run --server example.org --journal journal")
}

/// The lines of a run, the replies that they must have,
/// and how many bytes both have after each line.
#[derive(Drop)]
pub(super) struct Script {
    pub(super) input: Vec<u8>,
    pub(super) output: Vec<u8>,
    ends: Vec<(usize, usize)>,
}

impl Script {
    pub(super) fn new(alloc: Global) -> Script {
        Script {
            input: Vec::new(alloc),
            output: Vec::new(alloc),
            ends: Vec::new(alloc),
        }
    }

    /// Says this line, which has this reply.
    pub(super) fn say(&mut self, rt: &impl Abort, line: &[u8], reply: &str) {
        append(rt, &mut self.input, line);
        append(rt, &mut self.output, reply.as_bytes());
        self.ends
            .push((self.input.len(), self.output.len()))
            .expect(rt, reply);
    }

    /// Says each of these lines, which have one reply.
    pub(super) fn say_each(&mut self, rt: &impl Abort, lines: &[&str], reply: &str) {
        for line in lines {
            self.say(rt, line.as_bytes(), reply);
        }
    }

    /// Says this line with blanks behind it, so that it has so many bytes.
    pub(super) fn say_padded(
        &mut self,
        rt: &impl Abort,
        alloc: Global,
        line: &str,
        length: usize,
        reply: &str,
    ) {
        let padded = format!(in alloc; "{line:length$}").expect(rt, line);
        self.say(rt, padded.as_bytes(), reply);
    }

    /// The number of the line that is said next, from 1.
    pub(super) fn next_line(&self) -> usize {
        self.ends.len() + 1
    }

    /// How many bytes the replies have to the lines that end within so many bytes of the input.
    pub(super) fn replied(&self, taken: usize) -> usize {
        let mut written = 0;
        for (end, length) in self.ends.iter() {
            if *end <= taken {
                written = *length;
            }
        }
        written
    }
}

/// Appends a line and its line feed.
fn append(rt: &impl Abort, bytes: &mut Vec<u8>, line: &[u8]) {
    bytes.extend_from_slice(line).expect(rt, "a line");
    bytes.push(b'\n').expect(rt, "a line feed");
}

/// The script of these lines and their replies.
pub(super) fn script_of(rt: &impl Abort, alloc: Global, lines: &[(&str, &str)]) -> Script {
    let mut script = Script::new(alloc);
    for (line, reply) in lines {
        script.say(rt, line.as_bytes(), reply);
    }
    script
}

/// A source of these bytes, in pieces of one size, or as large as they are asked for where it is 0.
pub(super) fn source_of(rt: &impl Abort, alloc: Global, bytes: &[u8], size: usize) -> BytesSource {
    let sizes = sizes(rt, alloc, size, bytes.len());
    BytesSource::new(bytes.to_vec(alloc).expect(rt, "a source"), sizes)
}

/// So many sizes, or none where the size is 0.
fn sizes(rt: &impl Abort, alloc: Global, size: usize, count: usize) -> Vec<usize> {
    let count = if size > 0 { count } else { 0 };
    Vec::from_elem(alloc, size, count).expect(rt, "sizes")
}

/// A sink that keeps all output of a test.
pub(super) fn sink(rt: &impl Abort, alloc: Global) -> VecSink {
    VecSink::new(alloc, CAPACITY, CAPACITY).expect(rt, "a sink")
}

/// How many bytes were taken, where they are a front of those that were said.
pub(super) fn front_of(taken: &[u8], said: &[u8]) -> Option<usize> {
    if said.starts_with(taken) {
        Some(taken.len())
    } else {
        None
    }
}

/// A disk with this content, which takes memory for each call that changes it.
pub(super) fn memory(rt: &impl Abort, alloc: Global, content: &[u8]) -> MemoryDisk {
    MemoryDisk::new(alloc, content, 0, 0).expect(rt, "a disk")
}

/// Serves with the words that the server is run with, over an empty disk.
pub(super) fn serve_words<S: Source, K: Sink>(
    rt: &impl Abort,
    alloc: Global,
    source: &mut S,
    sink: &mut K,
) -> Status {
    let mut disk = memory(rt, alloc, b"");
    serve_disk(rt, alloc, source, sink, &mut disk)
}

/// Serves with the words that the server is run with.
pub(super) fn serve_disk<S: Source, K: Sink, D: Disk>(
    rt: &impl Abort,
    alloc: Global,
    source: &mut S,
    sink: &mut K,
    disk: &mut D,
) -> Status {
    let words = run_words(rt, alloc);
    serve(alloc, &words, source, sink, disk)
}

/// How serving ends, and how many bytes it writes, where they are a front of those that were said.
pub(super) fn serve_from<S: Source>(
    rt: &impl Abort,
    alloc: Global,
    source: &mut S,
    said: &[u8],
) -> (Status, Option<usize>) {
    let mut sink = sink(rt, alloc);
    let status = serve_words(rt, alloc, source, &mut sink);
    (status, front_of(sink.taken(), said))
}

/// Whether the lines of the script, in pieces of this size, have just its replies.
pub(super) fn is_served(rt: &impl Abort, alloc: Global, script: &Script, size: usize) -> bool {
    let mut source = source_of(rt, alloc, &script.input, size);
    let ran = serve_from(rt, alloc, &mut source, &script.output);
    ran == (Status::Done, Some(script.output.len()))
}
