ghost use Rattle.std.specs.Prelude.{◌≡◌, ℕ, ◌+◌, ◌≤◌, ◌↔◌, [], ◌∷◌, length, Some, None, IsTrue};
ghost use Rattle.std.specs.Prelude.{IfSome, IsSome, IsNone};

use crate::failure::Failure;
use std::marker::Model;

/// The wait after a first failure, in milliseconds.
const FIRST_PAUSE: u64 = 1_000;

/// The longest wait after a failure, in milliseconds.
const LONGEST_PAUSE: u64 = 3_600_000;

/// For how long a position may fail before it is given up, in milliseconds.
const PATIENCE: u64 = 86_400_000;

/// What became of one pusher in this run.
///
/// A post is in flight from [`post`](Pusher::post) until it failed or was settled. After the k-th
/// failure since the last settlement the pusher isn't due for 1000 * 2^(k - 1) milliseconds, and
/// for an hour at most.
#[derive(Drop)]
pub struct Pusher {
    number: u64,
    in_flight: Option<u64>,
    // how long it waits after its next failure
    pause: u64,
    // when it may be posted again, if it failed since the last settlement
    next: Option<u64>,
    // the last position that failed, and when it failed first
    failing: Option<Failure>,
}

impl Model for Pusher {
    ghost use Rattle.std.specs.Prelude.{◌≤◌};
    ghost use Rattle.mx_pusher.specs.Track.{Track, IsInOrder, position_of};

    ghost Value = { Track };

    ghost view = { λ p. record {
      number = p.number;
      in_flight = p.in_flight;
      pause = p.pause;
      next = p.next;
      failing = p.failing;
    } };

    ghost invariant = { λ p. (p.pause ≤ 3600000)
        × IsInOrder p.in_flight (position_of p.failing) };
}

impl Pusher {
    ghost use Rattle.mx_pusher.specs.Course.{posted, failed, settled, backoff, recent_failures};
    ghost use Rattle.mx_pusher.specs.Course.{IsDue, IsRipe};
    ghost use Rattle.mx_pusher.specs.Track.{StandsFor, EachCourse, IsNotBelow, last_failed};
    ghost use Rattle.mx_pusher.specs.Track.{greatest_moment};

    /// A pusher of this number, of which nothing became yet in this run.
    pub fn new(number: u64) -> Pusher
        ensures number { result.number ≡ number }
        ensures idle { result.in_flight ≡ None }
        ensures unfailed { last_failed result ≡ None }
        ensures course { StandsFor result [] }
    {
        Pusher {
            number,
            in_flight: None,
            pause: FIRST_PAUSE,
            next: None,
            failing: None,
        }
    }

    /// The position of the input that made the pusher.
    pub fn number(&self) -> u64
        ensures { result ≡ self.now.number }
    {
        self.number
    }

    /// The position whose exchange is in flight.
    pub fn in_flight(&self) -> Option<u64>
        ensures { result ≡ self.now.in_flight }
    {
        self.in_flight
    }

    /// The last position that failed in this run.
    pub fn last_failed(&self) -> Option<u64>
        ensures { result ≡ last_failed self.now }
    {
        match self.failing {
            Some(failure) => Some(failure.position),
            None => None,
        }
    }

    /// Whether it may be posted at this moment: nothing is in flight, and it has not failed since
    /// its last settlement or has waited long enough since.
    pub fn due(&self, now: u64) -> bool
        ensures { EachCourse self.now (λ course. IsTrue result ↔ IsDue course now) }
    {
        self.in_flight.is_none() && self.has_waited(now)
    }

    // Whether the wait after the last failure is over.
    fn has_waited(&self, now: u64) -> bool
        ensures { IsTrue result ↔ IfSome self.now.next (λ next. next ≤ now) }
    {
        match self.next {
            Some(next) => next <= now,
            None => true,
        }
    }

    /// An exchange is opened for this position, which isn't below the last one that failed.
    pub fn post(&mut self, position: u64)
        requires idle { self.old.in_flight ≡ None }
        requires order { IsNotBelow (last_failed self.old) position }
        ensures number { self.new.number ≡ self.old.number }
        ensures flying { self.new.in_flight ≡ Some position }
        ensures failed { last_failed self.new ≡ last_failed self.old }
        ensures course { EachCourse self.old
            (λ course. StandsFor self.new (posted position ∷ course)) }
    {
        self.in_flight = Some(position);
    }

    /// The exchange in flight failed. Answers from which moment on the pusher may be posted again.
    pub fn failed(&mut self, now: u64) -> u64
        requires flying { IsSome self.old.in_flight }
        requires moment { now ≤ greatest_moment }
        ensures number { self.new.number ≡ self.old.number }
        ensures idle { self.new.in_flight ≡ None }
        ensures failed { last_failed self.new ≡ self.old.in_flight }
        ensures next { EachCourse self.old
            (λ course. result ≡ now + backoff (length (recent_failures course) + 1)) }
        ensures course { EachCourse self.old (λ course. IfSome self.old.in_flight
            (λ position. StandsFor self.new (failed position now ∷ course))) }
    {
        let next = now + self.pause;
        let position = self.in_flight.take().unwrap();
        self.failing = Some(Failure::first(self.failing, position, now));
        self.pause = LONGEST_PAUSE.min(2 * self.pause);
        self.next = Some(next);
        next
    }

    /// The exchange in flight was settled: its position was pushed or rejected.
    pub fn settle(&mut self)
        requires flying { IsSome self.old.in_flight }
        ensures number { self.new.number ≡ self.old.number }
        ensures idle { self.new.in_flight ≡ None }
        ensures failed { last_failed self.new ≡ last_failed self.old }
        ensures course { EachCourse self.old (λ course. StandsFor self.new (settled ∷ course)) }
    {
        self.in_flight = None;
        self.begin_anew();
    }

    /// The moment of the first failure of this position, exactly where a giving up of it is ripe
    /// if it is the least pending one. Whether the pusher is due makes no difference.
    pub fn ripe(&self, position: u64, now: u64) -> Option<u64>
        requires order { IsNotBelow (last_failed self.now) position }
        ensures { EachCourse self.now
            (λ course. (since : ℕ) → (result ≡ Some since) ↔ IsRipe course position now since) }
    {
        match Failure::since(self.failing, position) {
            Some(since) if self.in_flight.is_none() && now.saturating_sub(since) >= PATIENCE => {
                Some(since)
            }
            _ => None,
        }
    }

    /// The position that failed for so long is given up, which settles it.
    pub fn give_up(&mut self)
        requires idle { self.old.in_flight ≡ None }
        ensures number { self.new.number ≡ self.old.number }
        ensures idle { self.new.in_flight ≡ None }
        ensures failed { last_failed self.new ≡ last_failed self.old }
        ensures course { EachCourse self.old (λ course. StandsFor self.new (settled ∷ course)) }
    {
        self.begin_anew();
    }

    // The backoff starts anew.
    fn begin_anew(&mut self)
        ensures { self.new ≡ record self.old { pause = 1000; next = None } }
    {
        self.pause = FIRST_PAUSE;
        self.next = None;
    }
}
