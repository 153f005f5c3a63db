//! Whether and how one event of a room is judged for one user, by the user's push rules and the
//! state of the room after the event.
#![tactic(auto)]

mod judging;

pub use judging::judge;
