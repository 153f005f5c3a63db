ghost use Rattle.std.specs.Prelude.{◌≡◌};
ghost use Rattle.mx_records.specs.declared.input_error.InputError.TheVariants.{OutOfMemory as WantOfMemory};

use crate::field_name::FieldName;
use mx_json::OutOfMemory;
use std::error::Error;
use std::fmt;

/// Why a JSON value is no input.
#[derive(Clone, Copy, Debug, PartialEq, Eq)]
pub enum InputError {
    /// This field is the first that is missing or wrong. What is no object lacks `cmd`.
    BadField(FieldName),
    /// The allocator had no memory.
    OutOfMemory,
}

impl fmt::Display for InputError {
    fn fmt<W: fmt::Write>(&self, f: &mut fmt::Formatter<W>) -> fmt::Result {
        match self {
            InputError::BadField(field) => write!(f, "{field} is missing or wrong"),
            InputError::OutOfMemory => f.write_str("out of memory"),
        }
    }
}

impl Error for InputError {}

impl From<OutOfMemory> for InputError {
    ghost from_gives = { λ _ error. error ≡ WantOfMemory };

    fn from(_error: OutOfMemory) -> InputError {
        InputError::OutOfMemory
    }
}
