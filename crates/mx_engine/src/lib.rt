//! The state of one homeserver's notifications, changed input by input.
//!
//! An engine stands for a history by the inputs that it accepted. An input is prepared,
//! which takes all of its memory, judges it and says whether the history refuses it, and then
//! applied, which can't fail. Every contract is said of each history for which the engine stands.
#![tactic(auto)]

mod engine;
mod error;
mod judging;
mod kept_rows;
mod payload;
mod plan;
mod reading;
mod rules;
mod telling;
mod totals;
mod user_rows;

pub use engine::Engine;
pub use error::PrepareError;
pub use mx_records::{Counts, Input, Refusal};
pub use plan::Plan;
