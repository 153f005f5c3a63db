ghost use Rattle.std.specs.Prelude.{◌≡◌};
ghost use Rattle.mx_outside.specs.Told.{raised};
ghost use Rattle.mx_outside.specs.ListClock.{moment_after};

use crate::clock::Clock;
use std::marker::Model;

/// A clock that gives the moments of a list, then the last of them for ever, or 0 where the list is
/// empty. It takes no memory.
#[derive(Drop)]
pub struct ListClock {
    moments: Vec<u64>,
    given: u64,
}

impl Model for ListClock {
    ghost use Rattle.mx_outside.specs.ListClock.{Moments};

    ghost Value = { Moments };

    ghost view = { λ c. record { moments = c.moments.items; given = c.given } };
}

impl ListClock {
    /// A clock that gives `moments`, in milliseconds.
    pub fn new(moments: Vec<u64>) -> ListClock
        ensures { result ≡ record { moments = moments.items; given = 0 } }
    {
        ListClock { moments, given: 0 }
    }

    /// The moment that comes next.
    fn next(&self) -> u64
        ensures { result ≡ moment_after self.now.moments self.now.given }
    {
        let last = self.moments.len().saturating_sub(1) as u64;
        let index = self.given.min(last) as usize;
        if index < self.moments.len() {
            self.moments[index]
        } else {
            0
        }
    }
}

impl Clock for ListClock {
    ghost use Rattle.std.specs.Prelude.{Some};
    ghost use Rattle.mx_outside.specs.Clock.{GivesMoment};
    ghost use Rattle.mx_outside.specs.ListClock.{moments_given};

    ghost given = { λ c. Some (moments_given c.moments c.given) };

    fn now(&mut self) -> u64
        ensures moment { result ≡ moment_after self.old.moments self.old.given }
        ensures counts { self.new ≡ record self.old { given = raised self.old.given } }
        ensures moments { GivesMoment result (moments_given self.old.moments self.old.given)
            (moments_given self.new.moments self.new.given) }
    {
        let moment = self.next();
        self.given = self.given.saturating_add(1);
        moment
    }
}
