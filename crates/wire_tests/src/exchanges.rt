//! What an exchange does beside reading: it sends first, waits, and is late.
use crate::fixtures::{REQUEST, drive, exchange, link_of, open};
use crate::one_byte_link::OneByteLink;
use mx_outside::{Clock, LinkStep, ListClock};
use mx_wire::{Cause, Ending};
use std::alloc::Global;
use std::process::Abort;

/// How an exchange ends that is polled so often at this moment, with a link of these steps.
fn ending_at(
    rt: &impl Abort,
    alloc: Global,
    steps: &[LinkStep],
    now: u64,
    polls: u64,
) -> Option<Ending> {
    let steps = Vec::from_slice(alloc, steps).expect(rt, "steps");
    let mut link = link_of(rt, alloc, Vec::new(alloc), steps);
    let number = open(rt, &mut link);
    let mut exchange = exchange(rt, alloc, number);
    if now < 1000 {
        return None;
    }
    drive(&mut exchange, &mut link, now, polls)
}

#[test]
fn waits_fails_and_is_late(rt: HostRuntime) {
    let late = Some(Ending::Failed(Cause::Late));
    let link = Some(Ending::Failed(Cause::Link));
    let early = Some(Ending::Failed(Cause::Early));
    for (steps, now, ending) in [
        ([LinkStep::Wait, LinkStep::Wait], 60_999, None),
        ([LinkStep::Wait, LinkStep::Wait], 61_000, late),
        ([LinkStep::Fail, LinkStep::Wait], 61_000, late),
        ([LinkStep::Fail, LinkStep::Wait], 60_999, link),
        ([LinkStep::Wait, LinkStep::Fail], 60_999, link),
        ([LinkStep::End, LinkStep::Fail], 60_999, early),
    ] {
        assert_eq!(rt;
            ending_at(&rt, rt.alloc(), &steps, now, 100),
            ending,
            "at {now}"
        );
    }
}

/// How an exchange ends that sends byte by byte and is polled so often.
fn ending_byte_by_byte(rt: &impl Abort, alloc: Global, polls: u64) -> Option<Ending> {
    let reply = Vec::from_slice(alloc, b"HTTP/1.1 204 No Content\r\n\r\n").expect(rt, "a reply");
    let steps = Vec::from_slice(alloc, &[LinkStep::Bytes(100)]).expect(rt, "a step");
    let mut script = link_of(rt, alloc, reply, steps);
    let number = open(rt, &mut script);
    let mut link = OneByteLink { link: script };
    let mut exchange = exchange(rt, alloc, number);
    drive(&mut exchange, &mut link, 1000, polls)
}

#[test]
fn nothing_is_received_before_the_whole_request_was_sent(rt: HostRuntime) {
    let all = REQUEST.len() as u64;
    let reply = Some(Ending::Reply(204));
    for (polls, ending) in [(1, None), (all, None), (all + 1, reply)] {
        assert_eq!(rt;
            ending_byte_by_byte(&rt, rt.alloc(), polls),
            ending,
            "{polls} polls"
        );
    }
}

#[test]
fn a_clock_gives_its_moments_and_then_its_last(rt: HostRuntime) {
    let moments = [5, 7, 6].to_vec(rt.alloc());
    let mut clock = ListClock::new(moments.expect(&rt, "moments"));
    let mut none = ListClock::new(Vec::new(rt.alloc()));
    for moment in [5, 7, 6, 6] {
        assert_eq!(rt; clock.now(), moment);
        assert_eq!(rt; none.now(), 0);
    }
}
