//! Edits of a user's push rules (Client-Server API v1.11, "Push rules: API"): `prepare` refuses an
//! edit or plans it, with all memory that it needs, and `apply` carries the plan out.
//!
//! What an edit makes of the five lists, and when it is refused, are definitions of `mx_rule`,
//! which the contracts here cite.
#![tactic(auto)]

mod checks;
mod criterion;
mod error;
mod lists;
mod plan;
mod put;

pub use error::EditError;
pub use plan::{EditPlan, apply, prepare};
