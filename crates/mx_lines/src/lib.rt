//! Lines: how bytes that come in pieces are cut into them, what a line is read as, what is replied,
//! and what a run over them is.
//!
//! A [`LineCutter`] is fed pieces and gives their lines, which are the same however the bytes
//! were cut: the definition of the lines of bytes (`specs/Lines.antt`) knows nothing of pieces.
//! It holds the bytes of one longest line and takes no more memory. [`read`] gives a line's command
//! by the table of commands (`specs/Commands.antt`), or its first refusal.
#![tactic(auto)]

mod buffer;
mod command;
mod cut;
mod cutter;
mod line;
mod question_word;
mod reply;
#[cfg(test)]
mod tests;

pub use command::{Command, Denial, LineError, LineRefusal};
pub use cut::{Cut, LONGEST_LINE};
pub use cutter::LineCutter;
pub use line::read;
pub use reply::{denied_into, ok_into, reply_into};
