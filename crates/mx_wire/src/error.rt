use std::error::Error;
use std::fmt;

/// Why a text is no URL that notifications can be posted to.
#[derive(Clone, Copy, Debug, PartialEq, Eq)]
pub enum TargetError {
    /// The text is no URL, or none of a push gateway.
    BadUrl,
    /// The allocator had no memory, or the URL would have 4 GB.
    OutOfMemory,
}

impl fmt::Display for TargetError {
    fn fmt<W: fmt::Write>(&self, f: &mut fmt::Formatter<W>) -> fmt::Result {
        f.write_str(match self {
            TargetError::BadUrl => "not the URL of a push gateway",
            TargetError::OutOfMemory => "out of memory",
        })
    }
}

impl Error for TargetError {}
