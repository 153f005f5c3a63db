ghost use Rattle.std.specs.Prelude.{◌≡◌};

/// What may be done with a journal.
#[derive(Clone, Copy, Debug, PartialEq, Eq)]
pub enum Phase {
    /// Payloads may be left to read.
    Reading,
    /// All payloads were read, and another may be committed.
    Writing,
    /// A commit failed, and none may follow.
    Failed,
}

impl Phase {
    ghost use Rattle.mx_journal.specs.NextRecord.{phase_at_end};

    /// The phase once the first gate that isn't open was read.
    pub(crate) fn at_end(self) -> Phase
        ensures { result ≡ phase_at_end self }
    {
        match self {
            Phase::Reading | Phase::Writing => Phase::Writing,
            Phase::Failed => Phase::Failed,
        }
    }
}
