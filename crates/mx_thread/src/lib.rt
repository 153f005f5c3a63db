//! Which thread of a room an event is in, and where accepted events are.
//!
//! The definition is `thread_of` of `specs/Place.antt`, given where earlier events are. [`Threads`]
//! keeps these places by the events' ids.
#![tactic(auto)]

mod place;
mod threads;

pub use place::Place;
pub use threads::Threads;
