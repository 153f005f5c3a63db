//! What a history of notifications is made of, what it refuses, and what it answers.
//!
//! A history is the list of its entries: the inputs that were accepted, and how notifications were
//! settled. Each answer is a definition over the whole list (`specs/`): the room after an event
//! (`Rooms.antt`), each user's rules (`Rules.antt`), whom an event notifies (`Judging.antt`), its
//! place and thread (`Places.antt`), up to where a user has read (`Cuts.antt`), what is unread
//! (`Counting.antt`), which pushers live (`Pushers.antt`), what is refused and which entry may come
//! next (`Refusing.antt`). An input is read from a JSON object by the form that its word asks for
//! (`specs/Forms.antt`). A state that stands for a history shows a snapshot of it, and is asked by
//! way of [`Questions`].
#![tactic(auto)]

mod decoding;
mod edit_form;
mod encoding;
mod entry;
mod entry_error;
mod field_name;
mod input;
mod input_error;
mod input_word;
mod nesting;
mod normal;
mod pending;
mod pusher_form;
mod pusher_spec;
mod questions;
mod receipt_form;
mod refusal;
#[cfg(test)]
mod tests;

pub use decoding::decode;
pub use encoding::{encode_input_into, encode_into};
pub use entry::{Entry, Outcome};
pub use entry_error::EntryError;
pub use field_name::FieldName;
pub use input::Input;
pub use input_error::InputError;
pub use input_word::InputWord;
pub use mx_rows::Counts;
pub use nesting::is_too_long;
pub use pending::{PendingEvent, Tweaks};
pub use pusher_spec::{HttpPusher, PusherSpec};
pub use questions::Questions;
pub use refusal::{DEEPEST_INPUT, LONGEST_PAYLOAD, MOST_INPUTS, Refusal};
