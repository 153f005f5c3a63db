use mx_json::OutOfMemory;
use std::error::Error;
use std::fmt;

/// Why a JSON value was not read as a condition.
#[derive(Clone, Copy, Debug, PartialEq, Eq)]
pub enum ConditionError {
    /// It isn't an object with a text `kind`, or it is of a known kind and lacks a field, has one
    /// of another JSON type, or has a pattern of more than 1,024 bytes.
    BadCondition,
    /// The allocator had no memory.
    OutOfMemory,
}

impl fmt::Display for ConditionError {
    fn fmt<W: fmt::Write>(&self, f: &mut fmt::Formatter<W>) -> fmt::Result {
        match self {
            ConditionError::BadCondition => f.write_str("not a condition"),
            ConditionError::OutOfMemory => f.write_str("out of memory"),
        }
    }
}

impl Error for ConditionError {}

impl From<OutOfMemory> for ConditionError {
    ghost use Rattle.std.specs.Prelude.{◌≡◌};
    ghost use Rattle.mx_cond.specs.declared.error.ConditionError.TheVariants.{OutOfMemory};

    ghost from_gives = { λ _ e. e ≡ OutOfMemory };

    fn from(_error: OutOfMemory) -> ConditionError {
        ConditionError::OutOfMemory
    }
}
