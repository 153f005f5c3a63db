use mx_json::OutOfMemory;
use std::error::Error;
use std::fmt;

/// Why a pattern was not read.
#[derive(Clone, Copy, Debug, PartialEq, Eq)]
pub enum GlobError {
    /// The pattern has more than 1,024 bytes.
    PatternTooLong,
    /// The allocator had no memory.
    OutOfMemory,
}

impl fmt::Display for GlobError {
    fn fmt<W: fmt::Write>(&self, f: &mut fmt::Formatter<W>) -> fmt::Result {
        match self {
            GlobError::PatternTooLong => f.write_str("the pattern is too long"),
            GlobError::OutOfMemory => f.write_str("out of memory"),
        }
    }
}

impl Error for GlobError {}

impl From<OutOfMemory> for GlobError {
    ghost use Rattle.std.specs.Prelude.{◌≡◌};
    ghost use Rattle.mx_glob.specs.declared.error.GlobError.TheVariants.{OutOfMemory};

    ghost from_gives = { λ _ e. e ≡ OutOfMemory };

    fn from(_error: OutOfMemory) -> GlobError {
        GlobError::OutOfMemory
    }
}
