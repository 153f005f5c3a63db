//! What is posted to a push gateway of an event that is pending, and what its reply says, by the
//! Push Gateway API v1.
//!
//! [`request_into`] prints a post as its definition has it (`specs/Post.antt`): a tree, small to
//! large, and the request around its canonical text. The event's content is printed from where it
//! stands. [`answer`] reads a reply's status and body (`specs/Answers.antt`).
#![tactic(auto)]

mod answering;
mod answers;
mod details;
mod device;
mod notification;
mod pieces;
mod request;

pub use answering::answer;
pub use answers::Answer;
pub use request::request_into;
