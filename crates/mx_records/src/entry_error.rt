ghost use Rattle.std.specs.Prelude.{◌≡◌};
ghost use Rattle.mx_records.specs.declared.entry_error.EntryError.TheVariants.{OutOfMemory as WantOfMemory};

use mx_json::OutOfMemory;
use std::alloc::AllocError;
use std::error::Error;
use std::fmt;

/// Why bytes are the payload of no entry.
#[derive(Clone, Copy, Debug, PartialEq, Eq)]
pub enum EntryError {
    /// The fault begins at this offset: 0 where there are no bytes or the tag is none, else 1.
    BadEntry(usize),
    /// The allocator had no memory.
    OutOfMemory,
}

impl fmt::Display for EntryError {
    fn fmt<W: fmt::Write>(&self, f: &mut fmt::Formatter<W>) -> fmt::Result {
        match self {
            EntryError::BadEntry(offset) => write!(f, "no entry: a fault at {offset}"),
            EntryError::OutOfMemory => f.write_str("out of memory"),
        }
    }
}

impl Error for EntryError {}

impl From<OutOfMemory> for EntryError {
    ghost from_gives = { λ _ error. error ≡ WantOfMemory };

    fn from(_error: OutOfMemory) -> EntryError {
        EntryError::OutOfMemory
    }
}

impl From<AllocError> for EntryError {
    ghost from_gives = { λ _ error. error ≡ WantOfMemory };

    fn from(_error: AllocError) -> EntryError {
        EntryError::OutOfMemory
    }
}
