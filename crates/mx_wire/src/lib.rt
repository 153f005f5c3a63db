//! Where notifications are posted to, and the exchange with a push gateway.
//!
//! A [`Target`] is the URL of a gateway. An [`Exchange`] sends a request over a link and reads the
//! gateway's reply by RFC 9112 in our profile, in whatever pieces it comes. What bytes hold is a
//! relation of `specs/Reply.antt`, and [`one_outcome`] and [`settled_stays`] are its laws.
#![tactic(auto)]

mod coding;
mod conversation;
mod error;
mod exchange;
mod head;
mod laws;
mod line;
mod number;
mod reader;
mod size;
mod target;
mod turn;

pub use error::TargetError;
pub use exchange::Exchange;
pub use laws::{
    blocks_are_read, blocks_are_spelled, chunks_are_read, chunks_are_spelled, one_outcome,
    refused_exactly, settled_stays,
};
pub use target::Target;
pub use turn::{Cause, Ending, Turn};
