ghost use Rattle.std.specs.Prelude.{◌≡◌, ◌≢◌, true, ℕ, List, IfOk, MatchOption};
ghost use Rattle.std.specs.Option.{option_copied};
ghost use Rattle.mx_json.specs.Gives.{Gives};
ghost use Rattle.mx_json.specs.Ids.{is_local, is_localpart, is_localpart_byte, is_user_id};
ghost use Rattle.mx_json.specs.Ids.{local_user, localpart_of, read_user_id};

use crate::id::{IdError, begins_with, has_length_of_an_id};
use crate::memory::OutOfMemory;
use std::alloc::Global;
use std::marker::Model;

/// A user id: it begins with `@` and holds `:`, and has 2 to 255 bytes (Matrix, 'Common identifier
/// format').
#[derive(Debug, Drop)]
pub struct UserId {
    text: String,
}

impl Model for UserId {
    ghost use Rattle.std.specs.Prelude.{◌≡◌, true, List, ℕ};
    ghost use Rattle.std.specs.String.{string_bytes};
    ghost use Rattle.mx_json.specs.Ids.{is_user_id};

    ghost Value = { List ℕ };

    ghost view = { λ id. string_bytes id.text };

    ghost invariant = { λ id. is_user_id (string_bytes id.text) ≡ true };
}

impl UserId {
    /// Reads a user id.
    ///
    /// # Errors
    ///
    /// `BadId` exactly where the text isn't a user id; `OutOfMemory` where the allocator has none.
    pub fn read(alloc: Global, text: &str) -> Result<UserId, IdError>
        ensures { Gives IdError.OutOfMemory result (read_user_id text.now) }
    {
        if !is_user_id(text) {
            return Err(IdError::BadId);
        }
        let text = String::from_str(alloc, text)?;
        Ok(UserId { text })
    }

    /// The text of the id.
    pub fn as_text(&self) -> &str
        ensures text { result.now ≡ self.now }
        ensures id { is_user_id self.now ≡ true }
    {
        self.text.as_str()
    }

    /// The localpart of a local user; `Some` exactly where the id is `@`, at least one character of
    /// `a-z 0-9 . _ = - / +`, `:` and the server's name.
    pub fn localpart_on(&self, server: &str) -> Option<&str>
        ensures { option_copied result ≡ localpart_of server.now self.now }
    {
        let part = part_before(self.text.as_str(), server)?;
        if is_localpart(part) { Some(part) } else { None }
    }

    /// Whether the user is local on this server, and so has a localpart there.
    pub fn is_local(&self, server: &str) -> bool
        ensures { result ≡ is_local server.now self.now }
    {
        self.localpart_on(server).is_some()
    }

    /// An equal id of its own.
    ///
    /// # Errors
    ///
    /// `OutOfMemory` where the allocator has none.
    pub fn copied(&self, alloc: Global) -> Result<UserId, OutOfMemory>
        ensures { IfOk result (λ id. id ≡ self.now) }
    {
        let text = String::from_str(alloc, self.text.as_str())?;
        Ok(UserId { text })
    }
}

// What stands between the `@` and the `:` before the server's name.
fn part_before<'a>(id: &'a str, server: &str) -> Option<&'a str>
    ensures { MatchOption result
        ((part : List ℕ) → id.now ≢ local_user server.now part)
        (λ part. id.now ≡ local_user server.now part.now) }
{
    id.strip_prefix('@')?
        .strip_suffix(server)?
        .strip_suffix(':')
}

fn is_localpart(part: &str) -> bool
    ensures { result ≡ is_localpart part.now }
{
    !part.is_empty() && part.bytes().all(|byte| is_localpart_byte(byte))
}

fn is_localpart_byte(byte: u8) -> bool
    ensures { result ≡ is_localpart_byte byte }
{
    byte.is_ascii_lowercase()
        || byte.is_ascii_digit()
        || matches!(byte, b'.' | b'_' | b'=' | b'-' | b'/' | b'+')
}

/// Whether the text is a user id.
pub fn is_user_id(text: &str) -> bool
    ensures { result ≡ is_user_id text.now }
{
    begins_with(text, b'@') && text.as_bytes().contains(&b':') && has_length_of_an_id(text)
}
