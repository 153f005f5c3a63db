//! Globs and words of the push rules: whether a pattern matches a text, whole or as a word of it,
//! within a bound on the reads of characters.
//!
//! Pattern and text are folded first (`mx_json::Folded`). `*` matches any number of characters, `?`
//! one, and every other character itself (Client-Server API v1.11, "Conditions for push rules").
//! Matching takes no memory: `Scratch` has it, for every glob, and keeps the foldings of the texts
//! that were matched last.
#![tactic(auto)]

mod error;
mod fall;
mod glob;
mod held;
mod onward;
mod place;
mod recent;
mod rest;
mod scratch;
mod search;
mod skips;
mod slot;
mod texts;
mod word;

pub use error::GlobError;
pub use glob::Glob;
pub use scratch::Scratch;
pub use word::{name_of_text, word_literal};
