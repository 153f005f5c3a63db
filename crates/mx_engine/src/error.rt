ghost use Rattle.std.specs.Prelude.{◌≡◌};
ghost use Rattle.mx_engine.specs.declared.error.PrepareError.TheVariants.{OutOfMemory as WantOfMemory};

use mx_json::OutOfMemory;
use mx_records::Refusal;
use std::alloc::AllocError;
use std::error::Error;
use std::fmt;

/// Why an input was not prepared.
#[derive(Clone, Copy, Debug, PartialEq, Eq)]
pub enum PrepareError {
    /// The history refuses it.
    Refused(Refusal),
    /// The allocator had no memory.
    OutOfMemory,
}

impl fmt::Display for PrepareError {
    fn fmt<W: fmt::Write>(&self, f: &mut fmt::Formatter<W>) -> fmt::Result {
        match self {
            PrepareError::Refused(refusal) => write!(f, "{refusal}"),
            PrepareError::OutOfMemory => f.write_str("out of memory"),
        }
    }
}

impl Error for PrepareError {}

impl From<OutOfMemory> for PrepareError {
    ghost from_gives = { λ _ error. error ≡ WantOfMemory };

    fn from(_error: OutOfMemory) -> PrepareError {
        PrepareError::OutOfMemory
    }
}

impl From<AllocError> for PrepareError {
    ghost from_gives = { λ _ error. error ≡ WantOfMemory };

    fn from(_error: AllocError) -> PrepareError {
        PrepareError::OutOfMemory
    }
}
