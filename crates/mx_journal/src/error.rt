use mx_outside::Failed;
use std::alloc::AllocError;
use std::error::Error;
use std::fmt;

/// Why a journal can't be opened or read on.
#[derive(Clone, Copy, Debug, PartialEq, Eq)]
pub enum JournalError {
    /// The disk holds no journal. Its first fault is at this offset, in bytes from 0.
    NotAJournal(u64),
    /// The disk failed.
    DiskFault,
    /// There was no memory for the payload.
    OutOfMemory,
}

/// Why a journal can't be opened, with the disk that is handed back.
#[derive(Debug, Drop)]
pub struct OpenError<D> {
    pub cause: JournalError,
    pub disk: D,
}

/// Why a payload can't be staged.
#[derive(Clone, Copy, Debug, PartialEq, Eq)]
pub enum StageError {
    /// The payload has more than 262,144 bytes.
    TooLong,
    /// There was no memory for the record.
    OutOfMemory,
}

/// Why a payload isn't acknowledged.
#[derive(Clone, Copy, Debug, PartialEq, Eq)]
pub enum CommitError {
    /// An earlier commit failed. Open the journal again.
    Closed,
    /// The disk failed, and the payload may be on it or not.
    DiskFault,
}

impl fmt::Display for JournalError {
    fn fmt<W: fmt::Write>(&self, f: &mut fmt::Formatter<W>) -> fmt::Result {
        match self {
            JournalError::NotAJournal(offset) => write!(f, "no journal: fault at byte {offset}"),
            JournalError::DiskFault => f.write_str("the disk failed"),
            JournalError::OutOfMemory => f.write_str("out of memory"),
        }
    }
}

impl fmt::Display for StageError {
    fn fmt<W: fmt::Write>(&self, f: &mut fmt::Formatter<W>) -> fmt::Result {
        match self {
            StageError::TooLong => f.write_str("the payload is too long"),
            StageError::OutOfMemory => f.write_str("out of memory"),
        }
    }
}

impl fmt::Display for CommitError {
    fn fmt<W: fmt::Write>(&self, f: &mut fmt::Formatter<W>) -> fmt::Result {
        match self {
            CommitError::Closed => f.write_str("an earlier commit failed"),
            CommitError::DiskFault => f.write_str("the disk failed"),
        }
    }
}

impl From<Failed> for JournalError {
    ghost use Rattle.std.specs.Prelude.{◌≡◌};
    ghost use Rattle.mx_journal.specs.declared.error.JournalError.TheVariants.{DiskFault};

    ghost from_gives = { λ _ e. e ≡ DiskFault };

    fn from(_failed: Failed) -> JournalError {
        JournalError::DiskFault
    }
}

impl From<AllocError> for JournalError {
    ghost use Rattle.std.specs.Prelude.{◌≡◌};
    ghost use Rattle.mx_journal.specs.declared.error.JournalError.TheVariants.{OutOfMemory};

    ghost from_gives = { λ _ e. e ≡ OutOfMemory };

    fn from(_error: AllocError) -> JournalError {
        JournalError::OutOfMemory
    }
}

impl From<AllocError> for StageError {
    ghost use Rattle.std.specs.Prelude.{◌≡◌};
    ghost use Rattle.mx_journal.specs.declared.error.StageError.TheVariants.{OutOfMemory};

    ghost from_gives = { λ _ e. e ≡ OutOfMemory };

    fn from(_error: AllocError) -> StageError {
        StageError::OutOfMemory
    }
}

impl Error for JournalError {}

impl Error for StageError {}

impl Error for CommitError {}
