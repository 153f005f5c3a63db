/// The kinds of push rules, in order of importance (Client-Server API v1.11, "Push rules").
#[derive(Clone, Copy, Debug, PartialEq, Eq)]
pub enum Kind {
    /// Rules by conditions that come before all others.
    Override,
    /// Rules by a pattern in the body of a message.
    Content,
    /// Rules of one room, by its id.
    Room,
    /// Rules of one sender, by the user's id.
    Sender,
    /// Rules by conditions that come after all others.
    Underride,
}

impl Kind {
    /// The kinds, in order of importance.
    pub const BY_IMPORTANCE: [Kind; 5] = [
        Kind::Override,
        Kind::Content,
        Kind::Room,
        Kind::Sender,
        Kind::Underride,
    ];
}

/// Where a rule stands in a ruleset.
#[derive(Clone, Copy, Debug, PartialEq, Eq)]
pub struct RulePlace {
    /// The rule's kind.
    pub kind: Kind,
    /// Its place among the rules of its kind, from 0.
    pub index: usize,
}
