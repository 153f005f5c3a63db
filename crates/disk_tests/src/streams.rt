//! Sources and sinks in memory.
use mx_outside::{
    BytesSource, FailingSink, FailingSource, Got, Put, RepeatSource, Sink, Source, VecSink,
};
use std::alloc::Global;
use std::process::Abort;

#[test]
fn sources_give_their_bytes(rt: HostRuntime) {
    for (answers, wanted) in [
        (
            pieces(&rt, rt.alloc()),
            [
                (Got::Bytes(1), *b"a\0\0"),
                (Got::Bytes(2), *b"bc\0"),
                (Got::Bytes(1), *b"d\0\0"),
                (Got::Bytes(3), *b"efg"),
                (Got::Bytes(2), *b"hi\0"),
                (Got::End, [0; 3]),
            ],
        ),
        (
            repeats(&rt, rt.alloc()),
            [
                (Got::Bytes(3), *b"xxx"),
                (Got::Failed, [0; 3]),
                (Got::Failed, [0; 3]),
                (Got::Bytes(2), *b"xx\0"),
                (Got::End, [0; 3]),
                (Got::End, [0; 3]),
            ],
        ),
    ] {
        assert_eq!(rt; answers, wanted);
    }
}

/// Pieces of stated sizes.
fn pieces(rt: &impl Abort, alloc: Global) -> [(Got, [u8; 3]); 6] {
    let bytes = b"abcdefghi".to_vec(alloc).expect(rt, "bytes");
    let sizes = [1, 2, 0, 9].to_vec(alloc).expect(rt, "sizes");
    read_all(&mut BytesSource::new(bytes, sizes))
}

/// A byte five times, where the second read and the third fail.
fn repeats(rt: &impl Abort, alloc: Global) -> [(Got, [u8; 3]); 6] {
    let numbers = [2, 3].to_vec(alloc).expect(rt, "numbers");
    read_all(&mut &mut FailingSource::new(RepeatSource::new(b'x', 5), numbers))
}

fn read_all<S: Source>(source: &mut S) -> [(Got, [u8; 3]); 6] {
    let mut answers = [(Got::End, [0; 3]); 6];
    for answer in answers.iter_mut() {
        *answer = next(source);
    }
    answers
}

/// What the next read of at most three bytes answers, and these.
fn next<S: Source>(source: &mut S) -> (Got, [u8; 3]) {
    let mut buffer = [0; 3];
    (source.read(&mut buffer), buffer)
}

#[test]
fn sinks_keep_what_they_took(rt: HostRuntime) {
    for (bytes, calls) in [(6, 3), (0, 0), (3, 1)] {
        assert!(rt; keeps_all(&rt, rt.alloc(), bytes, calls), "{bytes} bytes");
    }
    assert!(rt; keeps_others(&rt, rt.alloc()));
}

/// Whether a sink with memory for so many bytes and calls takes each piece, past its memory too.
fn keeps_all(rt: &impl Abort, alloc: Global, bytes: usize, calls: usize) -> bool {
    let mut sink = VecSink::new(alloc, bytes, calls).expect(rt, "a sink");
    write_all(&mut &mut sink) == [Put::Moved(2), Put::Moved(3), Put::Moved(1)]
        && sink.taken() == b"abcdef".as_slice()
        && sink.sizes() == [2, 3, 1].as_slice()
}

/// Whether a sink whose second call fails keeps the other pieces.
fn keeps_others(rt: &impl Abort, alloc: Global) -> bool {
    let numbers = [2].to_vec(alloc).expect(rt, "numbers");
    let sink = VecSink::new(alloc, 0, 0).expect(rt, "a sink");
    keeps_first_and_last(&mut FailingSink::new(sink, numbers))
}

fn keeps_first_and_last(sink: &mut FailingSink<VecSink>) -> bool {
    write_all(sink) == [Put::Moved(2), Put::Failed, Put::Moved(1)]
        && sink.below().taken() == b"abf".as_slice()
}

fn write_all<K: Sink>(sink: &mut K) -> [Put; 3] {
    [sink.write(b"ab"), sink.write(b"cde"), sink.write(b"f")]
}
