ghost use Rattle.std.specs.Prelude.{◌≡◌, IfOk};

use crate::kind::Kind;
use mx_json::{JsonList, JsonText, OutOfMemory};
use std::alloc::Global;

/// An edit of a user's push rules (Client-Server API v1.11, "Push rules: API"). A field that was
/// absent is `None`.
#[derive(Drop)]
pub enum Edit {
    /// Makes a rule, or replaces what one asks and does.
    Put {
        /// The rule's kind.
        kind: Kind,
        /// The rule's id.
        rule_id: JsonText,
        /// What a content rule looks for.
        pattern: Option<JsonText>,
        /// What an override or underride rule asks.
        conditions: Option<JsonList>,
        /// What it does.
        actions: JsonList,
        /// The user rule directly before which it is to stand.
        before: Option<JsonText>,
        /// The user rule directly after which it is to stand.
        after: Option<JsonText>,
    },
    /// Removes a rule.
    Delete {
        /// The rule's kind.
        kind: Kind,
        /// The rule's id.
        rule_id: JsonText,
    },
    /// Enables or disables a rule.
    Enable {
        /// The rule's kind.
        kind: Kind,
        /// The rule's id.
        rule_id: JsonText,
        /// Whether it is enabled from now on.
        enabled: bool,
    },
    /// Replaces what a rule does.
    SetActions {
        /// The rule's kind.
        kind: Kind,
        /// The rule's id.
        rule_id: JsonText,
        /// What it does from now on.
        actions: JsonList,
    },
}

impl Edit {
    /// An equal edit of its own.
    ///
    /// # Errors
    ///
    /// `OutOfMemory` where the allocator has none.
    pub fn copied(&self, alloc: Global) -> Result<Edit, OutOfMemory>
        ensures { IfOk result (λ edit. edit ≡ self.now) }
    {
        match self {
            Edit::Put {
                kind,
                rule_id,
                pattern,
                conditions,
                actions,
                before,
                after,
            } => Ok(Edit::Put {
                kind: *kind,
                rule_id: rule_id.copied(alloc)?,
                pattern: copied_text(alloc, pattern)?,
                conditions: copied_list(alloc, conditions)?,
                actions: actions.copied(alloc)?,
                before: copied_text(alloc, before)?,
                after: copied_text(alloc, after)?,
            }),
            Edit::Delete { kind, rule_id } => Ok(Edit::Delete {
                kind: *kind,
                rule_id: rule_id.copied(alloc)?,
            }),
            Edit::Enable {
                kind,
                rule_id,
                enabled,
            } => Ok(Edit::Enable {
                kind: *kind,
                rule_id: rule_id.copied(alloc)?,
                enabled: *enabled,
            }),
            Edit::SetActions {
                kind,
                rule_id,
                actions,
            } => Ok(Edit::SetActions {
                kind: *kind,
                rule_id: rule_id.copied(alloc)?,
                actions: actions.copied(alloc)?,
            }),
        }
    }
}

fn copied_text(alloc: Global, text: &Option<JsonText>) -> Result<Option<JsonText>, OutOfMemory>
    ensures { IfOk result (λ copy. copy ≡ text.now) }
{
    match text {
        Some(text) => Ok(Some(text.copied(alloc)?)),
        None => Ok(None),
    }
}

fn copied_list(alloc: Global, list: &Option<JsonList>) -> Result<Option<JsonList>, OutOfMemory>
    ensures { IfOk result (λ copy. copy ≡ list.now) }
{
    match list {
        Some(list) => Ok(Some(list.copied(alloc)?)),
        None => Ok(None),
    }
}

/// A part of an edit that can be wrong, in the order in which the parts are tested.
#[derive(Clone, Copy, Debug, PartialEq, Eq)]
pub enum Part {
    /// The rule's id.
    RuleId,
    /// The pattern of a content rule.
    Pattern,
    /// The conditions of an override or underride rule.
    Conditions,
    /// The actions.
    Actions,
}

/// Why an edit of a user's rules is refused, in the order in which the causes are tested.
#[derive(Clone, Copy, Debug, PartialEq, Eq)]
pub enum EditRefusal {
    /// A put or a delete of an id that begins with a full stop, or a put of one that holds a slash
    /// or a backslash.
    RuleReserved,
    /// This part is the first that is wrong.
    BadRule(Part),
    /// The kind has no rule with this id.
    RuleUnknown,
    /// What is to stand beside the rule isn't another rule of its kind that the user made.
    AnchorUnknown,
    /// The user has 1,000 rules already, and the rule isn't one of them.
    RulesFull,
}
