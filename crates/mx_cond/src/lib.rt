//! Conditions of push rules: what makes a JSON value one, and when it holds of an event.
//!
//! A condition is seen as the JSON value that it was read from, and power levels as the content of
//! their event, so that both are cited by definitions over plain data. Patterns are folded when a
//! condition is read, and the texts that they are tried on when they aren't in the scratch.
#![tactic(auto)]

mod condition;
mod count;
mod error;
mod facts;
mod kinds;
mod plain;
mod power;
mod property_path;
mod text_pattern;
mod wanted;

pub use condition::Condition;
pub use error::ConditionError;
pub use facts::Facts;
pub use power::PowerTable;
pub use property_path::body_of;
