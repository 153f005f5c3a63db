//! Backoff and giving up, at the moments where they change.
ghost use Rattle.std.specs.Prelude.{◌≡◌, ◌≤◌, None, Some};
ghost use Rattle.mx_pusher.specs.Track.{IsNotBelow, greatest_moment, last_failed};

use mx_pusher::Pusher;

/// Posts the position, which fails at this moment. Answers from when on it is posted again.
fn fail(pusher: &mut Pusher, position: u64, now: u64) -> u64
    requires idle { pusher.old.in_flight ≡ None }
    requires order { IsNotBelow (last_failed pusher.old) position }
    requires moment { now ≤ greatest_moment }
    ensures idle { pusher.new.in_flight ≡ None }
    ensures failed { last_failed pusher.new ≡ Some position }
{
    pusher.post(position);
    pusher.failed(now)
}

/// From when on a pusher is posted again after so many failures at the moment 10000.
fn next_after(failures: u64) -> u64 {
    let mut pusher = Pusher::new(3);
    let mut next = 10_000;
    for _ in 0..failures {
        next = fail(&mut pusher, 4, 10_000);
    }
    next
}

#[test]
fn the_wait_doubles_up_to_an_hour(rt: HostRuntime) {
    for (failures, next) in [
        (1, 11_000),
        (2, 12_000),
        (12, 2_058_000),
        (13, 3_610_000),
        (70, 3_610_000),
    ] {
        assert_eq!(rt; next_after(failures), next, "after {failures} failures");
    }
}

/// Whether a pusher that failed at the moment 10000 is due.
fn due_after_a_failure(now: u64) -> bool {
    let mut pusher = Pusher::new(3);
    let _next = fail(&mut pusher, 4, 10_000);
    pusher.due(now)
}

/// Whether it is due after it was then posted once more and settled.
fn due_after_a_settlement(now: u64) -> bool {
    let mut pusher = Pusher::new(3);
    let _next = fail(&mut pusher, 4, 10_000);
    pusher.post(4);
    pusher.settle();
    pusher.due(now)
}

#[test]
fn a_pusher_is_due_from_its_next_on(rt: HostRuntime) {
    for (now, after_a_failure) in [(10_999, false), (11_000, true), (11_001, true)] {
        assert_eq!(rt;
            due_after_a_failure(now),
            after_a_failure,
            "a failure, at {now}"
        );
        assert_eq!(rt; due_after_a_settlement(now), true, "a settlement, at {now}");
    }
}

/// The first failure of the position, where giving it up is ripe, after the position 4 failed at
/// 5000 and then the position 5 at 10000 and 20000.
fn ripe_after_two_positions(position: u64, now: u64) -> Option<u64>
    requires { 5 ≤ position }
{
    let mut pusher = Pusher::new(3);
    let _next = fail(&mut pusher, 4, 5_000);
    let _next = fail(&mut pusher, 5, 10_000);
    let _next = fail(&mut pusher, 5, 20_000);
    pusher.ripe(position, now)
}

#[test]
fn a_position_is_given_up_a_day_after_its_first_failure(rt: HostRuntime) {
    for (now, ripe) in [
        (86_409_999, None),
        (86_410_000, Some(10_000)),
        (86_420_000, Some(10_000)),
    ] {
        assert_eq!(rt; ripe_after_two_positions(5, now), ripe, "at {now}");
        assert_eq!(rt;
            ripe_after_two_positions(6, now),
            None,
            "another position, at {now}"
        );
    }
}
