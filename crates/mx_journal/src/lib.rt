//! The journal: a list of payloads on a disk that may stop at any moment.
//!
//! Each payload is one record, and a record counts from the moment at which its gate is open. A
//! commit writes the record behind a closed gate, syncs, opens the gate, and syncs again. So a
//! crash at any moment leaves the old list of payloads or the new one, and after `Ok` the new one.
//!
//! [`Journal::open`] and then [`Journal::next_record`], until it answers `false`, read the
//! payloads. After that [`Journal::stage`] and [`Journal::commit`] add one at a time.
#![tactic(auto)]

mod append;
mod error;
mod format;
mod journal;
mod open;
mod phase;
mod read;
mod stage;
mod write;

pub use error::{CommitError, JournalError, OpenError, StageError};
pub use journal::Journal;
pub use phase::Phase;
