//! What a gateway may send, and how the exchange ends then, however the bytes are cut.
use crate::fixtures::{drive, exchange, link_of, open};
use mx_outside::LinkStep;
use mx_wire::{Cause, Ending};
use std::alloc::Global;
use std::process::Abort;

/// What a gateway sends: a front, then a part so many times, then a tail, and then what the link
/// does; how the exchange ends, and with which body.
type Row = (
    &'static str,
    &'static str,
    usize,
    &'static str,
    LinkStep,
    Ending,
    &'static str,
);

/// How the bytes are cut.
#[derive(Clone, Copy)]
enum Cut {
    /// Not at all.
    Whole,
    /// In two, behind so many bytes.
    At(usize),
    /// In pieces of one byte, with a wait behind each.
    Single,
}

fn bytes_of(rt: &impl Abort, alloc: Global, row: &Row) -> Vec<u8> {
    let (front, part, times, tail, ..) = *row;
    let mut bytes = Vec::new(alloc);
    bytes
        .extend_from_slice(front.as_bytes())
        .expect(rt, "bytes");
    for _ in 0..times {
        bytes.extend_from_slice(part.as_bytes()).expect(rt, "bytes");
    }
    bytes.extend_from_slice(tail.as_bytes()).expect(rt, "bytes");
    bytes
}

fn steps_of(
    rt: &impl Abort,
    alloc: Global,
    length: usize,
    cut: Cut,
    then: LinkStep,
) -> Vec<LinkStep> {
    let mut steps = Vec::new(alloc);
    match cut {
        Cut::Whole => steps.push(LinkStep::Bytes(length)).expect(rt, "a step"),
        Cut::At(place) => {
            steps.push(LinkStep::Bytes(place)).expect(rt, "a step");
            steps.push(LinkStep::Bytes(length)).expect(rt, "a step");
        }
        Cut::Single => {
            for _ in 0..length {
                steps.push(LinkStep::Bytes(1)).expect(rt, "a step");
                steps.push(LinkStep::Wait).expect(rt, "a step");
            }
        }
    }
    steps.push(then).expect(rt, "a step");
    steps
}

/// Whether the exchange ends as the row says. The body of a reply of which a part is repeated isn't
/// looked at.
fn ends_as(rt: &impl Abort, alloc: Global, row: &Row, cut: Cut) -> bool {
    let (_, _, times, _, then, ending, body) = *row;
    let bytes = bytes_of(rt, alloc, row);
    let steps = steps_of(rt, alloc, bytes.len(), cut, then);
    let mut link = link_of(rt, alloc, bytes, steps);
    let number = open(rt, &mut link);
    let mut exchange = exchange(rt, alloc, number);
    let ended = drive(&mut exchange, &mut link, 60_999, 200_000);
    ended == Some(ending) && (times > 0 || body.is_empty() || exchange.body() == body.as_bytes())
}

#[test]
fn a_reply_ends_as_the_row_says_whole_and_in_single_bytes(rt: HostRuntime) {
    for row in &REPLIES {
        assert!(rt; ends_as(&rt, rt.alloc(), row, Cut::Whole), "{}", row.0);
        assert!(rt; ends_as(&rt, rt.alloc(), row, Cut::Single), "{}", row.0);
    }
}

#[test]
fn a_short_reply_ends_as_the_row_says_wherever_it_is_cut(rt: HostRuntime) {
    for row in &REPLIES {
        if row.2 == 0 {
            for place in 1..row.0.len() {
                assert!(rt;
                    ends_as(&rt, rt.alloc(), row, Cut::At(place)),
                    "{} at {place}",
                    row.0
                );
            }
        }
    }
}

const WHOLE: Ending = Ending::Reply(200);

const NO_REPLY: Ending = Ending::Failed(Cause::NotReply);

const TOO_LONG: Ending = Ending::Failed(Cause::TooLong);

const EARLY: Ending = Ending::Failed(Cause::Early);

#[rattlefmt::skip]
static REPLIES: [Row; 44] = [
    // In pieces, early ends.
    ("HTTP/1.1 100 Continue\r\n\r\nHTTP/1.1 200 OK\r\nTransfer-Encoding: chunked\r\n\r\n2\r\n{}\r\n0\r\n\r\n",
        "", 0, "", LinkStep::End, WHOLE, "{}"),
    ("HTTP/1.1 200 OK\r\nContent-Length: 5\r\n\r\nabc", "", 0, "", LinkStep::End, EARLY, ""),
    ("", "", 0, "", LinkStep::End, EARLY, ""),
    ("HTTP/1.1 199 Early\r\n\r\n", "", 0, "", LinkStep::End, EARLY, ""),
    ("HTTP/1.1 200 OK\r\nContent-Length: 2\r\n", "", 0, "", LinkStep::End, EARLY, ""),
    ("HTTP/1.1 200 OK\r\nTransfer-Encoding: chunked\r\n\r\n2\r\n{}\r\n0\r\n", "", 0, "", LinkStep::End, EARLY, ""),
    ("HTTP/1.1 200 OK\r\nContent-Length: 2\r\n\r\n{", "", 0, "", LinkStep::Fail, Ending::Failed(Cause::Link), ""),
    // Too long.
    ("", "HTTP/1.1 100 Continue\r\n\r\n", 2700, "", LinkStep::End, TOO_LONG, ""),
    ("HTTP/1.1 200 OK\r\nContent-Length: 70000\r\n\r\n", "a", 66000, "", LinkStep::End, TOO_LONG, ""),
    ("", "x", 66000, "", LinkStep::End, TOO_LONG, ""),
    // A head of 65,536 bytes, and a reply whose last byte is the 65,536th.
    ("HTTP/1.1 200 OK\r\nContent-Length: 5\r\na:", "b", 65494, "\r\n\r\n", LinkStep::End, TOO_LONG, ""),
    ("HTTP/1.1 204 OK\r\na:", "b", 65513, "\r\n\r\n", LinkStep::End, Ending::Reply(204), ""),
    ("HTTP/1.1 200 OK\r\nContent-Length: 65494\r\n\r\n", "b", 65494, "", LinkStep::End, WHOLE, ""),
    ("HTTP/1.1 200 OK\r\nContent-Length: 65495\r\n\r\n", "b", 65495, "", LinkStep::End, TOO_LONG, ""),
    // Lengths.
    ("HTTP/1.1 200 OK\r\nContent-Length: 00000000002\r\n\r\n{}", "", 0, "", LinkStep::End, NO_REPLY, ""),
    ("HTTP/1.1 200 OK\r\nContent-Length: 0000000002\r\n\r\n{}", "", 0, "", LinkStep::End, WHOLE, "{}"),
    ("HTTP/1.1 200 OK\r\nContent-Length: 2x\r\n\r\n{}", "", 0, "", LinkStep::End, NO_REPLY, ""),
    ("HTTP/1.1 200 OK\r\nContent-Length:\r\n\r\n{}", "", 0, "", LinkStep::End, NO_REPLY, ""),
    ("HTTP/1.1 200 OK\r\nContent-Length: 2\r\nTransfer-Encoding: chunked\r\n\r\n2\r\n{}\r\n0\r\n\r\n",
        "", 0, "", LinkStep::End, NO_REPLY, ""),
    ("HTTP/1.1 200 OK\r\nContent-Length: 2\r\ncontent-length: 2\r\n\r\n{}", "", 0, "", LinkStep::End, NO_REPLY, ""),
    ("HTTP/1.1 302 Found\r\nContent-Length: 0\r\n\r\n", "", 0, "", LinkStep::Wait, Ending::Reply(302), ""),
    ("HTTP/1.1 204 No Content\r\nContent-Length: 5\r\n\r\n", "", 0, "", LinkStep::Wait, Ending::Reply(204), ""),
    ("HTTP/1.1 304 Not Modified\r\nContent-Length: x\r\n\r\n", "", 0, "", LinkStep::Wait, Ending::Reply(304), ""),
    ("HTTP/1.1 200 OK\r\n\r\n{\"rejected\":[\"k1\"]}", "", 0, "", LinkStep::End, WHOLE, "{\"rejected\":[\"k1\"]}"),
    ("HTTP/1.1 200 OK\r\nContent-Length: 2\r\n\r\n{}HTTP/1.1 500 No\r\n\r\n", "", 0, "", LinkStep::Fail, WHOLE, "{}"),
    // Heads.
    ("HTTP/1.1 600 No\r\n\r\n", "", 0, "", LinkStep::End, NO_REPLY, ""),
    ("HTTP/1.1 099 No\r\n\r\n", "", 0, "", LinkStep::End, NO_REPLY, ""),
    ("HTTP/1.1 599 Last\r\n\r\n", "", 0, "", LinkStep::End, Ending::Reply(599), ""),
    ("HTTP/2 200 OK\r\n\r\n", "", 0, "", LinkStep::End, NO_REPLY, ""),
    ("HTTP/1.1 200 OK\r\n", "a: b\r\n", 64, "\r\n", LinkStep::End, WHOLE, ""),
    ("HTTP/1.1 200 OK\r\n", "a: b\r\n", 65, "\r\n", LinkStep::End, NO_REPLY, ""),
    ("HTTP/1.1 200 OK\nContent-Length: 2\n\n{}", "", 0, "", LinkStep::Wait, WHOLE, "{}"),
    ("\r\n\nHTTP/1.1 200 OK\r\ncOnTeNt-LeNgTh: 2\r\n\r\n{}", "", 0, "", LinkStep::Wait, WHOLE, "{}"),
    // Chunks.
    ("HTTP/1.1 200 OK\r\nTransfer-Encoding: CHUNKED\r\n\r\n2;a=b\r\n{}\r\n0\r\nt: 1\r\n\r\n",
        "", 0, "", LinkStep::Wait, WHOLE, "{}"),
    ("HTTP/1.1 200 OK\r\nTransfer-Encoding: chunked\r\n\r\n1 \r\n{\r\n01\t;x\r\n}\r\n000\r\n\r\n",
        "", 0, "", LinkStep::Wait, WHOLE, "{}"),
    ("HTTP/1.1 200 OK\r\nTransfer-Encoding: chunked\r\n\r\nA\r\n0123456789\r\n1f\r\n0123456789012345678901234567890\r\n0\r\n\r\n",
        "", 0, "", LinkStep::Wait, WHOLE, "01234567890123456789012345678901234567890"),
    ("HTTP/1.1 200 OK\r\nTransfer-Encoding: gzip, chunked\r\n\r\n2\r\n{}\r\n0\r\n\r\n", "", 0, "", LinkStep::End, NO_REPLY, ""),
    ("HTTP/1.1 200 OK\r\nTransfer-Encoding: chunked\r\n\r\nzz\r\n", "", 0, "", LinkStep::End, NO_REPLY, ""),
    ("HTTP/1.1 200 OK\r\nTransfer-Encoding: chunked\r\n\r\n000000002\r\n{}\r\n0\r\n\r\n", "", 0, "", LinkStep::End, NO_REPLY, ""),
    ("HTTP/1.1 200 OK\r\nTransfer-Encoding: chunked\r\n\r\n00000002\r\n{}\r\n0\r\n\r\n", "", 0, "", LinkStep::Wait, WHOLE, "{}"),
    ("HTTP/1.1 200 OK\r\nTransfer-Encoding: chunked\r\n\r\n2;a\n{}\r\n0\r\n\r\n", "", 0, "", LinkStep::End, NO_REPLY, ""),
    ("HTTP/1.1 200 OK\r\nTransfer-Encoding: chunked\r\n\r\n2\r\n{}\n0\r\n\r\n", "", 0, "", LinkStep::End, NO_REPLY, ""),
    ("HTTP/1.1 200 OK\r\nTransfer-Encoding: chunked\r\n\r\n0\r\nt: 1\n\r\n", "", 0, "", LinkStep::End, NO_REPLY, ""),
    ("HTTP/1.1 200 OK\r\nTransfer-Encoding: chunked\r\n\r\n0\n\r\n", "", 0, "", LinkStep::End, NO_REPLY, ""),
];
