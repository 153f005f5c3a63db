//! Push rules: what a rule is, how a user's rules stand by importance, which of them decides for an
//! event, and what its actions mean.
//!
//! A rule is seen as plain data, its actions and conditions as the JSON that they were read from,
//! and a ruleset as five lists of rules, one a kind. The predefined table is a definition of this
//! crate, since whoever speaks of a user's rules begins with it.
#![tactic(auto)]

mod action;
mod actions;
mod criterion;
mod edit;
mod kind;
mod list;
mod list_change;
mod pattern;
mod printing;
mod rule;
mod ruleset;
mod verdict;

pub use action::Action;
pub use actions::Actions;
pub use criterion::Criterion;
pub use edit::{Edit, EditRefusal, Part};
pub use kind::{Kind, RulePlace};
pub use list::RuleList;
pub use list_change::ListChange;
pub use pattern::Pattern;
pub use rule::Rule;
pub use ruleset::Ruleset;
pub use verdict::Verdict;
