ghost use Rattle.std.specs.Prelude.{◌≡◌, ◌≢◌, ◌<◌, ◌≤◌, ℕ, Bool, List, Option, IsTrue, length};
ghost use Rattle.mx_outside.specs.Told.{WhereTold, Rose};

/// What one `read` of a [`Source`] answers.
#[derive(Clone, Copy, Debug, PartialEq, Eq)]
pub enum Got {
    /// So many bytes, at least one, now stand at the front of the buffer.
    Bytes(usize),
    /// No bytes are left.
    End,
    /// The source failed, and gave no byte.
    Failed,
}

/// Where bytes come from.
pub trait Source {
    ghost use Rattle.mx_outside.specs.Outside.{IsGiven, GivesBytes};

    // The bytes that are left, where it tells them.
    ghost left: { Self → Option (List ℕ) };

    // How often it failed, as far as it counts.
    ghost faults: { Self → ℕ };

    // Whether it is known that no call fails from now on.
    ghost never_fails: { Self → Bool };

    /// Puts the next bytes at the front of `into`, which isn't empty, as many as it likes but at
    /// least one, and answers how many. `End` comes only where none are left, and `Failed` only
    /// where the count of faults rose, and never where it is known not to fail.
    fn read(&mut self, into: &mut [u8]) -> Got
        requires { 0 < length into.old }
        ensures given { IsGiven result (length into.old) }
        ensures bytes { WhereTold (left self.old) (left self.new) (GivesBytes result into.new) }
        ensures count { faults self.old ≤ faults self.new }
        ensures failed { result ≡ Got.Failed → Rose (faults self.old) (faults self.new) }
        ensures steady { result ≢ Got.Failed → faults self.new ≡ faults self.old }
        ensures sure { IsTrue (never_fails self.old) → result ≢ Got.Failed }
        ensures still { IsTrue (never_fails self.old) → IsTrue (never_fails self.new) };
}

impl<S: Source> Source for &mut S {
    ghost left = { λ s. S.left s.now };

    ghost faults = { λ s. S.faults s.now };

    ghost never_fails = { λ s. S.never_fails s.now };

    fn read(&mut self, into: &mut [u8]) -> Got {
        (**self).read(into)
    }
}
