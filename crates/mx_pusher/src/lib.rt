//! One pusher in this run: what is in flight, when it is due again after a failure, and when a
//! position that keeps failing is to be given up.
//!
//! Nothing here takes memory or reads a clock. Moments are milliseconds, at most 2^53 - 1, and are
//! handed in by the caller, whose condition is that they never fall from call to call. What became
//! of a pusher is a `Course` of `specs/Course.antt`, which has the words in flight, due and ripe.
#![tactic(auto)]

mod failure;
mod pusher;

pub use pusher::Pusher;
