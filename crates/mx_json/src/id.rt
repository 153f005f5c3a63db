ghost use Rattle.std.specs.Prelude.{◌≡◌};
ghost use Rattle.mx_json.specs.Ids.{begins_with, has_length_of_an_id};

use crate::memory::OutOfMemory;
use std::alloc::AllocError;
use std::error::Error;
use std::fmt;

/// Why a text is read as no id.
#[derive(Clone, Copy, Debug, PartialEq, Eq)]
pub enum IdError {
    /// The text isn't such an id.
    BadId,
    /// The allocator had no memory.
    OutOfMemory,
}

impl fmt::Display for IdError {
    fn fmt<W: fmt::Write>(&self, f: &mut fmt::Formatter<W>) -> fmt::Result {
        match self {
            IdError::BadId => f.write_str("not an id"),
            IdError::OutOfMemory => f.write_str("out of memory"),
        }
    }
}

impl Error for IdError {}

impl From<AllocError> for IdError {
    ghost use Rattle.std.specs.Prelude.{◌≡◌};
    ghost use Rattle.mx_json.specs.declared.id.IdError.TheVariants.{OutOfMemory};

    ghost from_gives = { λ _ e. e ≡ OutOfMemory };

    fn from(_error: AllocError) -> IdError {
        IdError::OutOfMemory
    }
}

impl From<OutOfMemory> for IdError {
    ghost use Rattle.std.specs.Prelude.{◌≡◌};
    ghost use Rattle.mx_json.specs.declared.id.IdError.TheVariants.{OutOfMemory};

    ghost from_gives = { λ _ e. e ≡ OutOfMemory };

    fn from(_error: OutOfMemory) -> IdError {
        IdError::OutOfMemory
    }
}

pub(crate) fn begins_with(text: &str, byte: u8) -> bool
    ensures { result ≡ begins_with byte text.now }
{
    match text.as_bytes() {
        [first, ..] => *first == byte,
        [] => false,
    }
}

pub(crate) fn has_length_of_an_id(text: &str) -> bool
    ensures { result ≡ has_length_of_an_id text.now }
{
    2 <= text.len() && text.len() <= 255
}
