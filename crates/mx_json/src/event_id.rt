ghost use Rattle.std.specs.Prelude.{◌≡◌, true, IfOk};
ghost use Rattle.mx_json.specs.Gives.{Gives};
ghost use Rattle.mx_json.specs.Ids.{is_event_id, read_event_id};

use crate::id::{IdError, begins_with, has_length_of_an_id};
use crate::memory::OutOfMemory;
use std::alloc::Global;
use std::marker::Model;

/// An event id: it begins with `$`, and has 2 to 255 bytes (Matrix, 'Common identifier format').
#[derive(Debug, Drop)]
pub struct EventId {
    text: String,
}

impl Model for EventId {
    ghost use Rattle.std.specs.Prelude.{◌≡◌, true, List, ℕ};
    ghost use Rattle.std.specs.String.{string_bytes};
    ghost use Rattle.mx_json.specs.Ids.{is_event_id};

    ghost Value = { List ℕ };

    ghost view = { λ id. string_bytes id.text };

    ghost invariant = { λ id. is_event_id (string_bytes id.text) ≡ true };
}

impl EventId {
    /// Reads an event id.
    ///
    /// # Errors
    ///
    /// `BadId` exactly where the text isn't an event id;
    /// `OutOfMemory` where the allocator has none.
    pub fn read(alloc: Global, text: &str) -> Result<EventId, IdError>
        ensures { Gives IdError.OutOfMemory result (read_event_id text.now) }
    {
        if !is_event_id(text) {
            return Err(IdError::BadId);
        }
        let text = String::from_str(alloc, text)?;
        Ok(EventId { text })
    }

    /// The text of the id.
    pub fn as_text(&self) -> &str
        ensures text { result.now ≡ self.now }
        ensures id { is_event_id self.now ≡ true }
    {
        self.text.as_str()
    }

    /// An equal id of its own.
    ///
    /// # Errors
    ///
    /// `OutOfMemory` where the allocator has none.
    pub fn copied(&self, alloc: Global) -> Result<EventId, OutOfMemory>
        ensures { IfOk result (λ id. id ≡ self.now) }
    {
        let text = String::from_str(alloc, self.text.as_str())?;
        Ok(EventId { text })
    }
}

/// Whether the text is an event id.
pub fn is_event_id(text: &str) -> bool
    ensures { result ≡ is_event_id text.now }
{
    begins_with(text, b'$') && has_length_of_an_id(text)
}
