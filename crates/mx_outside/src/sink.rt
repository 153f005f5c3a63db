ghost use Rattle.std.specs.Prelude.{◌≡◌, ◌≢◌, ◌<◌, ◌≤◌, ℕ, List, Option, length};
ghost use Rattle.mx_outside.specs.Told.{WhereTold, Rose};
ghost use Rattle.mx_outside.specs.Budget.{Budget, Covers, SpendsAtMost};

/// What one `write` to a [`Sink`] answers.
#[derive(Clone, Copy, Debug, PartialEq, Eq)]
pub enum Put {
    /// So many bytes, at least one, were taken from the front of the piece.
    Moved(usize),
    /// The sink failed, and took no byte.
    Failed,
}

/// Where bytes go.
pub trait Sink {
    ghost use Rattle.mx_outside.specs.Outside.{IsMoved, Takes, moved_count};

    // The bytes that it took, where it tells them.
    ghost taken: { Self → Option (List ℕ) };

    // How often it failed, as far as it counts.
    ghost faults: { Self → ℕ };

    // For how many bytes and calls it can't fail.
    ghost budget: { Self → Budget };

    /// Takes the first bytes of `piece`, which isn't empty, as many as it likes but at least one,
    /// and answers how many. `Failed` comes only where the count of faults rose, and never
    /// within the budget.
    fn write(&mut self, piece: &[u8]) -> Put
        requires { 0 < length piece.now }
        ensures moved { IsMoved result (length piece.now) }
        ensures bytes { WhereTold (taken self.old) (taken self.new) (Takes result piece.now) }
        ensures count { faults self.old ≤ faults self.new }
        ensures failed { result ≡ Put.Failed → Rose (faults self.old) (faults self.new) }
        ensures steady { result ≢ Put.Failed → faults self.new ≡ faults self.old }
        ensures within { Covers (budget self.old) (length piece.now) → result ≢ Put.Failed }
        ensures spends { SpendsAtMost (moved_count result) (budget self.old) (budget self.new) };
}

impl<K: Sink> Sink for &mut K {
    ghost taken = { λ s. K.taken s.now };

    ghost faults = { λ s. K.faults s.now };

    ghost budget = { λ s. K.budget s.now };

    fn write(&mut self, piece: &[u8]) -> Put {
        (**self).write(piece)
    }
}
