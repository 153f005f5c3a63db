ghost use Rattle.std.specs.Prelude.{◌≡◌};
ghost use Rattle.mx_store.specs.declared.error.StoreError.TheVariants.{OutOfMemory as WantOfMemory};

use mx_journal::JournalError;
use mx_json::OutOfMemory;
use mx_records::Refusal;
use std::alloc::AllocError;
use std::error::Error;
use std::fmt;

/// Why a store can't be opened, or its entries can't be counted.
#[derive(Clone, Copy, Debug, PartialEq, Eq)]
pub enum StoreError {
    /// The disk stands for no history of this homeserver. Its first fault is at this offset, in
    /// bytes from 0.
    NotAJournal(u64),
    /// The disk failed.
    DiskFault,
    /// The allocator had no memory.
    OutOfMemory,
}

/// Why a store can't be opened, with the disk that is handed back.
#[derive(Debug, Drop)]
pub struct OpenError<D> {
    /// Why.
    pub cause: StoreError,
    /// The disk.
    pub disk: D,
}

/// Why an input isn't accepted.
#[derive(Clone, Copy, Debug, PartialEq, Eq)]
pub enum AcceptError {
    /// The history refuses it.
    Refused(Refusal),
    /// The disk failed, and the input may be on it or not. Open the store again.
    DiskFault,
    /// The allocator had no memory.
    OutOfMemory,
}

impl fmt::Display for StoreError {
    fn fmt<W: fmt::Write>(&self, f: &mut fmt::Formatter<W>) -> fmt::Result {
        match self {
            StoreError::NotAJournal(offset) => write!(f, "no journal: fault at byte {offset}"),
            StoreError::DiskFault => f.write_str("the disk failed"),
            StoreError::OutOfMemory => f.write_str("out of memory"),
        }
    }
}

impl fmt::Display for AcceptError {
    fn fmt<W: fmt::Write>(&self, f: &mut fmt::Formatter<W>) -> fmt::Result {
        match self {
            AcceptError::Refused(refusal) => write!(f, "{refusal}"),
            AcceptError::DiskFault => f.write_str("the disk failed"),
            AcceptError::OutOfMemory => f.write_str("out of memory"),
        }
    }
}

impl Error for StoreError {}

impl Error for AcceptError {}

impl From<JournalError> for StoreError {
    ghost use Rattle.mx_store.specs.Opening.{store_error};

    ghost from_gives = { λ error result. result ≡ store_error error };

    fn from(error: JournalError) -> StoreError {
        match error {
            JournalError::NotAJournal(offset) => StoreError::NotAJournal(offset),
            JournalError::DiskFault => StoreError::DiskFault,
            JournalError::OutOfMemory => StoreError::OutOfMemory,
        }
    }
}

impl From<OutOfMemory> for StoreError {
    ghost from_gives = { λ _ error. error ≡ WantOfMemory };

    fn from(_error: OutOfMemory) -> StoreError {
        StoreError::OutOfMemory
    }
}

impl From<AllocError> for StoreError {
    ghost from_gives = { λ _ error. error ≡ WantOfMemory };

    fn from(_error: AllocError) -> StoreError {
        StoreError::OutOfMemory
    }
}
