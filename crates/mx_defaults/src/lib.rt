//! The push rules that every user has from the start (Client-Server API v1.11, "Predefined rules";
//! the table is our own).
//!
//! The table stands twice: as rows here, and as a definition in `mx_rule`, which the contract of
//! `predefined` cites.
#![tactic(auto)]

mod row;
mod rules;
mod table;
mod values;

pub use rules::predefined;
