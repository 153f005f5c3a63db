//! The store: the history of one homeserver's notifications on a disk, and the engine that stands
//! for it.
//!
//! The disk is a journal of the history's inputs, a payload each. [`Store::open`] reads it and
//! accepts each input as it was accepted when it came, so the engine is what it was.
//! [`Store::accept`] goes on by one input: at `Ok` it is on the disk, and a crash at any moment
//! leaves the history or the one with that input. [`Store::tally`] counts and writes nothing.
#![tactic(auto)]

mod error;
mod opening;
mod replay;
mod store;
mod tally;

pub use error::{AcceptError, OpenError, StoreError};
pub use store::Store;
pub use tally::{Tallied, Tally};
