ghost use Rattle.std.specs.Prelude.{ℕ, List, Option};
ghost use Rattle.mx_outside.specs.Told.{WhereTold};
ghost use Rattle.mx_outside.specs.Clock.{GivesMoment};

/// What tells the time.
pub trait Clock {
    // The moments that it gave, in milliseconds, where it tells them.
    ghost given: { Self → Option (List ℕ) };

    /// The moment now, in milliseconds.
    fn now(&mut self) -> u64
        ensures moments { WhereTold (given self.old) (given self.new) (GivesMoment result) };
}

impl<C: Clock> Clock for &mut C {
    ghost given = { λ c. C.given c.now };

    fn now(&mut self) -> u64 {
        (**self).now()
    }
}
