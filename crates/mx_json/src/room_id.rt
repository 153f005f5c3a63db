ghost use Rattle.std.specs.Prelude.{◌≡◌, true, IfOk};
ghost use Rattle.mx_json.specs.Gives.{Gives};
ghost use Rattle.mx_json.specs.Ids.{is_room_id, read_room_id};

use crate::id::{IdError, begins_with, has_length_of_an_id};
use crate::memory::OutOfMemory;
use std::alloc::Global;
use std::marker::Model;

/// A room id: it begins with `!`, and has 2 to 255 bytes (Matrix, 'Common identifier format').
#[derive(Debug, Drop)]
pub struct RoomId {
    text: String,
}

impl Model for RoomId {
    ghost use Rattle.std.specs.Prelude.{◌≡◌, true, List, ℕ};
    ghost use Rattle.std.specs.String.{string_bytes};
    ghost use Rattle.mx_json.specs.Ids.{is_room_id};

    ghost Value = { List ℕ };

    ghost view = { λ id. string_bytes id.text };

    ghost invariant = { λ id. is_room_id (string_bytes id.text) ≡ true };
}

impl RoomId {
    /// Reads a room id.
    ///
    /// # Errors
    ///
    /// `BadId` exactly where the text isn't a room id; `OutOfMemory` where the allocator has none.
    pub fn read(alloc: Global, text: &str) -> Result<RoomId, IdError>
        ensures { Gives IdError.OutOfMemory result (read_room_id text.now) }
    {
        if !is_room_id(text) {
            return Err(IdError::BadId);
        }
        let text = String::from_str(alloc, text)?;
        Ok(RoomId { text })
    }

    /// The text of the id.
    pub fn as_text(&self) -> &str
        ensures text { result.now ≡ self.now }
        ensures id { is_room_id self.now ≡ true }
    {
        self.text.as_str()
    }

    /// An equal id of its own.
    ///
    /// # Errors
    ///
    /// `OutOfMemory` where the allocator has none.
    pub fn copied(&self, alloc: Global) -> Result<RoomId, OutOfMemory>
        ensures { IfOk result (λ id. id ≡ self.now) }
    {
        let text = String::from_str(alloc, self.text.as_str())?;
        Ok(RoomId { text })
    }
}

/// Whether the text is a room id.
pub fn is_room_id(text: &str) -> bool
    ensures { result ≡ is_room_id text.now }
{
    begins_with(text, b'!') && has_length_of_an_id(text)
}
