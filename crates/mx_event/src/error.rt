use mx_json::OutOfMemory;
use std::alloc::AllocError;
use std::error::Error;
use std::fmt;

/// A field of an event, in the order in which the fields are tested.
#[derive(Clone, Copy, Debug, PartialEq, Eq)]
pub enum EventField {
    /// `event_id`, an event id.
    EventId,
    /// `room_id`, a room id.
    RoomId,
    /// `sender`, a user id.
    Sender,
    /// `type`, a text of at most 255 bytes.
    Kind,
    /// `content`, an object.
    Content,
    /// `state_key`, absent or a text of at most 255 bytes.
    StateKey,
}

/// Why a JSON value is no event.
#[derive(Clone, Copy, Debug, PartialEq, Eq)]
pub enum EventError {
    /// This field is the first that is missing or wrong.
    BadEvent(EventField),
    /// The allocator had no memory.
    OutOfMemory,
}

impl fmt::Display for EventField {
    fn fmt<W: fmt::Write>(&self, f: &mut fmt::Formatter<W>) -> fmt::Result {
        f.write_str(match self {
            EventField::EventId => "event_id",
            EventField::RoomId => "room_id",
            EventField::Sender => "sender",
            EventField::Kind => "type",
            EventField::Content => "content",
            EventField::StateKey => "state_key",
        })
    }
}

impl fmt::Display for EventError {
    fn fmt<W: fmt::Write>(&self, f: &mut fmt::Formatter<W>) -> fmt::Result {
        match self {
            EventError::BadEvent(field) => write!(f, "not an event: {field} is wrong"),
            EventError::OutOfMemory => f.write_str("out of memory"),
        }
    }
}

impl Error for EventError {}

impl From<OutOfMemory> for EventError {
    ghost use Rattle.std.specs.Prelude.{◌≡◌};
    ghost use Rattle.mx_event.specs.declared.error.EventError.TheVariants.{OutOfMemory};

    ghost from_gives = { λ _ e. e ≡ OutOfMemory };

    fn from(_error: OutOfMemory) -> EventError {
        EventError::OutOfMemory
    }
}

impl From<AllocError> for EventError {
    ghost use Rattle.std.specs.Prelude.{◌≡◌};
    ghost use Rattle.mx_event.specs.declared.error.EventError.TheVariants.{OutOfMemory};

    ghost from_gives = { λ _ e. e ≡ OutOfMemory };

    fn from(_error: AllocError) -> EventError {
        EventError::OutOfMemory
    }
}
