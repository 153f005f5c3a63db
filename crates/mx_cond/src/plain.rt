ghost use Rattle.std.specs.Prelude.{◌≡◌, ◌↔◌, Some, IfOk, IsTrue};
ghost use Rattle.mx_json.specs.Gives.{Gives};
ghost use Rattle.mx_cond.specs.Condition.{or_bad, plain_of};
ghost use Rattle.mx_cond.specs.Holds.{Equals};

use crate::error::ConditionError;
use mx_json::{Json, JsonText, OutOfMemory};
use std::alloc::Global;

/// A JSON value that is neither a list nor an object.
#[derive(Drop)]
pub enum Plain {
    Null,
    Truth(bool),
    Whole(i64),
    Text(JsonText),
}

impl Plain {
    /// The plain value that a JSON value is.
    pub fn read(alloc: Global, json: &Json) -> Result<Plain, ConditionError>
        ensures { Gives ConditionError.OutOfMemory result (or_bad (plain_of json.now)) }
    {
        match json {
            Json::Null => Ok(Plain::Null),
            Json::Truth(truth) => Ok(Plain::Truth(*truth)),
            Json::Whole(number) => Ok(Plain::Whole(*number)),
            Json::Text(text) => Ok(Plain::Text(text.copied(alloc)?)),
            Json::List(_) | Json::Object(_) => Err(ConditionError::BadCondition),
        }
    }

    /// An equal value of its own.
    pub fn copied(&self, alloc: Global) -> Result<Plain, OutOfMemory>
        ensures { IfOk result (λ plain. plain ≡ self.now) }
    {
        match self {
            Plain::Null => Ok(Plain::Null),
            Plain::Truth(truth) => Ok(Plain::Truth(*truth)),
            Plain::Whole(number) => Ok(Plain::Whole(*number)),
            Plain::Text(text) => Ok(Plain::Text(text.copied(alloc)?)),
        }
    }

    /// Whether a JSON value equals this one.
    pub fn equals(&self, json: &Json) -> bool
        ensures { IsTrue result ↔ Equals self.now json.now }
    {
        match (self, json) {
            (Plain::Null, Json::Null) => true,
            (Plain::Truth(wanted), Json::Truth(truth)) => wanted == truth,
            (Plain::Whole(wanted), Json::Whole(number)) => wanted == number,
            (Plain::Text(wanted), Json::Text(text)) => wanted.as_str() == text.as_str(),
            _ => false,
        }
    }
}
