ghost use Rattle.std.specs.Prelude.{◌≡◌, ◌≤◌, ◌⊎◌, true, Some, None, IfOk, MatchResult};
ghost use Rattle.mx_json.specs.Gives.{Gives};
ghost use Rattle.mx_json.specs.Json.{is_valid};
ghost use Rattle.mx_json.specs.Reading.{read_json, reading};
ghost use Rattle.serde_json.specs.View.{view};

use crate::memory::OutOfMemory;
use crate::nesting::nests_within;
use crate::value::Json;
use crate::whole::whole_json;
use serde_json::Value;
use std::alloc::{AllocError, Global};
use std::error::Error;
use std::fmt;

/// Why bytes are read as no JSON value.
#[derive(Clone, Copy, Debug, PartialEq, Eq)]
pub enum JsonError {
    /// The bytes aren't JSON, or the value is nested too deep.
    BadJson,
    /// A number isn't whole, or not in range.
    NotWhole,
    /// The allocator had no memory.
    OutOfMemory,
}

impl fmt::Display for JsonError {
    fn fmt<W: fmt::Write>(&self, f: &mut fmt::Formatter<W>) -> fmt::Result {
        match self {
            JsonError::BadJson => f.write_str("not JSON, or nested too deep"),
            JsonError::NotWhole => f.write_str("a number that isn't whole"),
            JsonError::OutOfMemory => f.write_str("out of memory"),
        }
    }
}

impl Error for JsonError {}

impl From<AllocError> for JsonError {
    ghost use Rattle.std.specs.Prelude.{◌≡◌};
    ghost use Rattle.mx_json.specs.declared.reading.JsonError.TheVariants.{OutOfMemory};

    ghost from_gives = { λ _ e. e ≡ OutOfMemory };

    fn from(_error: AllocError) -> JsonError {
        JsonError::OutOfMemory
    }
}

impl From<OutOfMemory> for JsonError {
    ghost use Rattle.std.specs.Prelude.{◌≡◌};
    ghost use Rattle.mx_json.specs.declared.reading.JsonError.TheVariants.{OutOfMemory};

    ghost from_gives = { λ _ e. e ≡ OutOfMemory };

    fn from(_error: OutOfMemory) -> JsonError {
        JsonError::OutOfMemory
    }
}

impl Json {
    /// Reads a JSON value, nested at most `deepest` deep: a plain value has depth 0, a list or an
    /// object one more than its deepest member, and 1 where it is empty.
    ///
    /// # Errors
    ///
    /// `BadJson` exactly where the bytes aren't JSON or the value is nested too deep; `NotWhole`
    /// exactly where it is readable, not too deep, and has a number that isn't whole (written with
    /// a full stop or an exponent, or outside -(2^53)+1 to (2^53)-1); `OutOfMemory` where the
    /// allocator has none.
    pub fn from_text(alloc: Global, bytes: &[u8], deepest: u32) -> Result<Json, JsonError>
        requires { deepest ≤ 127 }
        ensures read { Gives JsonError.OutOfMemory result (read_json bytes.now deepest) }
        ensures valid { IfOk result (λ json. is_valid json ≡ true) }
    {
        let value = read_value(alloc, bytes)?;
        if !nests_within(&value, deepest) {
            return Err(JsonError::BadJson);
        }
        whole_json(alloc, value)
    }
}

fn read_value(alloc: Global, bytes: &[u8]) -> Result<Value, JsonError>
    ensures { MatchResult result
        (λ value. reading bytes.now ≡ Some (view value))
        (λ error. ((reading bytes.now ≡ None) × (error ≡ JsonError.BadJson))
        ⊎ (error ≡ JsonError.OutOfMemory)) }
{
    match Value::from_slice(alloc, bytes) {
        Ok(value) => Ok(value),
        Err(error) => if error.is_memory() {
            Err(JsonError::OutOfMemory)
        } else {
            Err(JsonError::BadJson)
        },
    }
}
