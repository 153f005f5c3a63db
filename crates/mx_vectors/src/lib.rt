//! Tables of cases, as data, each with a name: what tests of several crates compare with, and what
//! `bench/` measures. No answer in them comes from this repository's own output.
#![tactic(auto)]

mod conditions;
mod globs;
mod rules;
mod text;

pub use conditions::{
    ConditionCase, ConditionFacts, contains_display_name_cases, event_match_cases,
    event_property_cases, other_condition_cases, room_member_count_cases,
    sender_notification_permission_cases,
};
pub use globs::{Answers, GLOB_CASES, GLOB_WORK, GlobCall, GlobCase, GlobWork};
pub use rules::{
    ActionsCase, PredefinedCase, PrintedRules, actions_cases, predefined_cases,
    printed_predefined_rules,
};
pub use text::Text;
