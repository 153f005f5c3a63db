use mx_json::{RoomId, UserId};
use mx_records::{FieldName, Input, Refusal};
use std::error::Error;
use std::fmt;

/// What a line asks for.
#[derive(Drop)]
pub enum Command {
    /// Accept this input.
    Input(Input),
    /// How many events of the room are unread for the user, thread by thread or in sum?
    Counts {
        /// For whom.
        user: UserId,
        /// Of which room.
        room: RoomId,
        /// Whether thread by thread.
        threads: bool,
    },
    /// What are the user's push rules?
    Rules {
        /// Whose rules.
        user: UserId,
    },
}

/// Why a line has no command, in the order in which the causes are tested.
#[derive(Clone, Copy, Debug, PartialEq, Eq)]
pub enum LineRefusal {
    /// It isn't JSON, or it is nested deeper than 100.
    BadLine,
    /// It has a number that isn't whole.
    NotWhole,
    /// This field is the first that is missing or wrong. What is no object lacks `cmd`.
    BadField(FieldName),
    /// The word of its command is stated, and the command isn't built yet. It stands straight
    /// after the reading of `cmd`.
    NotBuilt,
}

/// Why a line was not read.
#[derive(Clone, Copy, Debug, PartialEq, Eq)]
pub enum LineError {
    /// It has no command.
    Refused(LineRefusal),
    /// The allocator had no memory.
    OutOfMemory,
}

/// Why a line is refused.
#[derive(Clone, Copy, Debug, PartialEq, Eq)]
pub enum Denial {
    /// It has more than 131,072 bytes without its line feed.
    TooLong,
    /// It has no command.
    Line(LineRefusal),
    /// The history refuses what it asks for.
    Input(Refusal),
}

impl fmt::Display for LineRefusal {
    fn fmt<W: fmt::Write>(&self, f: &mut fmt::Formatter<W>) -> fmt::Result {
        match self {
            LineRefusal::BadLine => f.write_str("not JSON, or nested too deep"),
            LineRefusal::NotWhole => f.write_str("a number that isn't whole"),
            LineRefusal::BadField(field) => write!(f, "{field} is missing or wrong"),
            LineRefusal::NotBuilt => f.write_str("the command isn't built"),
        }
    }
}

impl Error for LineRefusal {}

impl fmt::Display for LineError {
    fn fmt<W: fmt::Write>(&self, f: &mut fmt::Formatter<W>) -> fmt::Result {
        match self {
            LineError::Refused(refusal) => write!(f, "{refusal}"),
            LineError::OutOfMemory => f.write_str("out of memory"),
        }
    }
}

impl Error for LineError {}
