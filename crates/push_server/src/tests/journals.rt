//! Runs over a journal: what they leave on the disk, and what the next run makes of it.

use super::fixtures::{memory, serve_disk, sink, source_of, words};
use crate::serve::serve;
use crate::status::Status;
use mx_outside::{BytesSource, Disk, FailingDisk, FailingSink, Fill, MemoryDisk, Sink, VecSink};
use std::alloc::Global;
use std::process::Abort;

/// An edit of a rule, as its line.
const RULE: &[u8] =
    b"{\"cmd\":\"rule_enable\",\"enabled\":false,\"kind\":\"override\",\"rule_id\":\".m.rule.master\",\"user\":\"@b:example.org\"}\n";

/// The journal of that edit alone.
#[rattlefmt::skip]
const RULE_IMAGE: &[u8] =
    b"MXPUSHJ1\x01\0\0\0\0\0\0\0\x01\x6b\0\0\0\x01{\"cmd\":\"rule_enable\",\"enabled\":false,\"kind\":\"override\",\"rule_id\":\".m.rule.master\",\"user\":\"@b:example.org\"}\0";

/// The journal without entries.
const EMPTY_IMAGE: &[u8] = b"MXPUSHJ1\x01\0\0\0\0\0\0\0\0";

/// Two users join a room, and one writes: the other has one unread.
const LINES: &[u8] =
    b"{\"cmd\":\"event\",\"event\":{\"content\":{\"membership\":\"join\"},\"event_id\":\"$1\",\"room_id\":\"!r:example.org\",\"sender\":\"@a:example.org\",\"state_key\":\"@a:example.org\",\"type\":\"m.room.member\"}}\n{\"cmd\":\"event\",\"event\":{\"content\":{\"membership\":\"join\"},\"event_id\":\"$2\",\"room_id\":\"!r:example.org\",\"sender\":\"@b:example.org\",\"state_key\":\"@b:example.org\",\"type\":\"m.room.member\"}}\n{\"cmd\":\"event\",\"event\":{\"content\":{\"body\":\"hi\",\"msgtype\":\"m.text\"},\"event_id\":\"$3\",\"room_id\":\"!r:example.org\",\"sender\":\"@a:example.org\",\"type\":\"m.room.message\"}}\n";

/// What is unread for the second user?
const QUESTION: &[u8] =
    b"{\"cmd\":\"counts\",\"room_id\":\"!r:example.org\",\"user\":\"@b:example.org\"}\n";

/// How serving these bytes over a disk ends, and whether it writes these.
fn serves<D: Disk>(
    rt: &impl Abort,
    alloc: Global,
    input: &[u8],
    disk: &mut D,
    output: &[u8],
) -> (Status, bool) {
    let mut source = source_of(rt, alloc, input, 0);
    let mut sink = sink(rt, alloc);
    let status = serve_disk(rt, alloc, &mut source, &mut sink, disk);
    (status, sink.taken() == output)
}

/// How a check of a disk ends, and whether it writes these bytes and leaves the disk as it was.
fn checks(rt: &impl Abort, alloc: Global, content: &[u8], output: &[u8]) -> (Status, bool) {
    let mut disk = memory(rt, alloc, content);
    let (status, written) = checked(rt, alloc, &mut disk, output);
    (status, written && disk.content() == content)
}

fn checked<D: Disk>(rt: &impl Abort, alloc: Global, disk: &mut D, output: &[u8]) -> (Status, bool) {
    let words = words(rt, alloc, "check --journal journal --server=example.org");
    let mut source = source_of(rt, alloc, b"not read", 0);
    let mut sink = sink(rt, alloc);
    let status = serve(alloc, &words, &mut source, &mut sink, disk);
    (status, sink.taken() == output)
}

#[test]
fn a_run_leaves_its_journal(rt: HostRuntime) {
    for (content, input, output, image) in [
        (b"".as_slice(), b"".as_slice(), b"".as_slice(), EMPTY_IMAGE),
        (b"", RULE, b"= {\"ok\":1}\n", RULE_IMAGE),
        (EMPTY_IMAGE, RULE, b"= {\"ok\":1}\n", RULE_IMAGE),
        (RULE_IMAGE, b"", b"", RULE_IMAGE),
    ] {
        assert!(rt; leaves(&rt, rt.alloc(), content, input, output, image));
    }
}

fn leaves(
    rt: &impl Abort,
    alloc: Global,
    content: &[u8],
    input: &[u8],
    output: &[u8],
    image: &[u8],
) -> bool {
    let mut disk = memory(rt, alloc, content);
    serves(rt, alloc, input, &mut disk, output) == (Status::Done, true) && disk.content() == image
}

#[test]
fn what_is_no_journal_is_told(rt: HostRuntime) {
    let told = b"= {\"error\":\"NotAJournal\",\"offset\":0}\n";
    let mut disk = memory(&rt, rt.alloc(), b"no journal, and more than 17 bytes");
    assert_eq!(rt;
        serves(&rt, rt.alloc(), RULE, &mut disk, told),
        (Status::NotAJournal, true)
    );
    assert_eq!(rt;
        checks(&rt, rt.alloc(), b"no journal, and more than 17 bytes", told),
        (Status::NotAJournal, true)
    );
}

#[test]
fn a_check_counts_what_is_kept(rt: HostRuntime) {
    for (content, output) in [
        (b"".as_slice(), b"= {\"entries\":0,\"inputs\":0}\n"),
        (b"seventeen bytes..", b"= {\"entries\":0,\"inputs\":0}\n"),
        (RULE_IMAGE, b"= {\"entries\":1,\"inputs\":1}\n"),
    ] {
        assert_eq!(rt;
            checks(&rt, rt.alloc(), content, output),
            (Status::Done, true)
        );
    }
}

#[test]
fn a_second_run_goes_on(rt: HostRuntime) {
    let mut disk = memory(&rt, rt.alloc(), b"");
    let acknowledged = b"= {\"ok\":1}\n= {\"ok\":2}\n= {\"ok\":3}\n";
    assert_eq!(rt;
        serves(&rt, rt.alloc(), LINES, &mut disk, acknowledged),
        (Status::Done, true)
    );
    assert!(rt; has_inputs(&rt, rt.alloc(), &mut disk, 3));
}

/// Whether a disk has so many of the three inputs, and the counts that they give.
fn has_inputs<D: Disk>(rt: &impl Abort, alloc: Global, disk: &mut D, inputs: usize) -> bool {
    checked(rt, alloc, disk, tally_of(inputs)) == (Status::Done, true)
        && serves(rt, alloc, QUESTION, disk, counts_after(inputs)) == (Status::Done, true)
}

/// What a check says of so many inputs.
fn tally_of(inputs: usize) -> &'static [u8] {
    match inputs {
        0 => b"= {\"entries\":0,\"inputs\":0}\n",
        1 => b"= {\"entries\":1,\"inputs\":1}\n",
        2 => b"= {\"entries\":2,\"inputs\":2}\n",
        _ => b"= {\"entries\":3,\"inputs\":3}\n",
    }
}

/// The reply to the question after so many inputs.
fn counts_after(inputs: usize) -> &'static [u8] {
    if inputs < 3 {
        b"= {\"highlight_count\":0,\"notification_count\":0,\"threads\":{}}\n"
    } else {
        b"= {\"highlight_count\":0,\"notification_count\":1,\"threads\":{}}\n"
    }
}

const FILLS: [Fill; 4] = [Fill::Old, Fill::New, Fill::Zeros, Fill::Ones];

#[test]
fn a_stop_at_each_call_of_the_disk_keeps_what_was_acknowledged(rt: HostRuntime) {
    // Opening makes five calls, each input four; the last doesn't come.
    for call in 1..=18 {
        for fill in FILLS {
            let right = keeps(&rt, rt.alloc(), call, fill);
            assert!(rt; right, "{fill:?} at {call}");
        }
    }
}

/// Whether what a crash leaves, where this call of the disk fails,
/// are the acknowledged inputs or one more.
fn keeps(rt: &impl Abort, alloc: Global, call: u64, fill: Fill) -> bool {
    let calls = [call].to_vec(alloc).expect(rt, "a call");
    let mut disk = FailingDisk::new(memory(rt, alloc, b""), calls);
    let mut source = source_of(rt, alloc, LINES, 0);
    let mut sink = sink(rt, alloc);
    let status = serve_disk(rt, alloc, &mut source, &mut sink, &mut disk);
    let acknowledged = begun(sink.taken());
    let ended = if call < 18 {
        Status::DiskFault
    } else {
        Status::Done
    };
    status == ended && is_kept(rt, alloc, disk.below(), fill, acknowledged)
}

#[test]
fn a_stop_at_each_write_keeps_what_was_acknowledged(rt: HostRuntime) {
    for call in 1..=4 {
        for fill in FILLS {
            let right = keeps_replied(&rt, rt.alloc(), call, fill);
            assert!(rt; right, "{fill:?} at {call}");
        }
    }
}

/// The same where this call of the sink fails.
fn keeps_replied(rt: &impl Abort, alloc: Global, call: u64, fill: Fill) -> bool {
    let calls = [call].to_vec(alloc).expect(rt, "a call");
    let mut disk = memory(rt, alloc, b"");
    let mut source: BytesSource = source_of(rt, alloc, LINES, 0);
    let mut failing: FailingSink<VecSink> = FailingSink::new(sink(rt, alloc), calls);
    let status = serve_disk(rt, alloc, &mut source, &mut failing, &mut disk);
    let acknowledged = begun(failing.below().taken());
    let ended = if call < 4 {
        Status::WriteFault
    } else {
        Status::Done
    };
    status == ended && is_kept(rt, alloc, &disk, fill, acknowledged)
}

/// How many replies were begun.
fn begun(output: &[u8]) -> usize {
    output.iter().filter(|byte| **byte == b'=').count()
}

fn is_kept(
    rt: &impl Abort,
    alloc: Global,
    disk: &MemoryDisk,
    fill: Fill,
    acknowledged: usize,
) -> bool {
    let mut kept = disk.left(alloc, fill).expect(rt, "an image");
    let mut more = disk.left(alloc, fill).expect(rt, "an image");
    has_inputs(rt, alloc, &mut kept, acknowledged)
        || has_inputs(rt, alloc, &mut more, acknowledged.saturating_add(1))
}
