ghost use Rattle.std.specs.Prelude.{◌≡◌, string_bytes, IfOk};

use crate::memory::OutOfMemory;
use std::alloc::Global;
use std::marker::Model;

/// A text of a JSON value, or the key of a member: UTF-8, seen as the list of its bytes.
#[derive(Debug, Drop)]
pub struct JsonText {
    text: String,
}

impl Model for JsonText {
    ghost use Rattle.std.specs.Prelude.{List, ℕ};
    ghost use Rattle.std.specs.String.{string_bytes};

    ghost Value = { List ℕ };

    ghost view = { λ t. string_bytes t.text };
}

impl JsonText {
    /// A text of its own with these bytes.
    ///
    /// # Errors
    ///
    /// `OutOfMemory` where the allocator has none.
    pub fn read(alloc: Global, text: &str) -> Result<JsonText, OutOfMemory>
        ensures { IfOk result (λ t. t ≡ text.now) }
    {
        let text = String::from_str(alloc, text)?;
        Ok(JsonText { text })
    }

    // The text that a `String` holds, without a copy.
    pub(crate) fn from_string(text: String) -> JsonText
        ensures { result ≡ string_bytes text }
    {
        JsonText { text }
    }

    /// The text.
    pub fn as_str(&self) -> &str
        ensures { result.now ≡ self.now }
    {
        self.text.as_str()
    }

    /// An equal text of its own.
    ///
    /// # Errors
    ///
    /// `OutOfMemory` where the allocator has none.
    pub fn copied(&self, alloc: Global) -> Result<JsonText, OutOfMemory>
        ensures { IfOk result (λ t. t ≡ self.now) }
    {
        JsonText::read(alloc, self.as_str())
    }
}
