//! Rows of unread events, a list for each thread.
//!
//! [`Rows`] is what such lists are kept by; [`PlainRows`] keeps them plainly, and packs nothing.
#![tactic(auto)]

mod adding;
mod counts;
mod cutting;
mod plain;
mod row;
mod rows;
mod thread_key;
mod thread_rows;
mod threads;

pub use counts::{Counts, Sizes};
pub use plain::PlainRows;
pub use row::Row;
pub use rows::Rows;
pub use thread_key::ThreadKey;
