//! Events of a room: what makes a JSON object one, and what is read off it.
//!
//! An event is seen as the JSON object that it was made from; each accessor answers the definition
//! of its name over that object.
#![tactic(auto)]

mod error;
mod event;
mod fields;
mod places;
mod property;
mod relation;

pub use error::{EventError, EventField};
pub use event::Event;
pub use property::Property;
pub use relation::Relation;
