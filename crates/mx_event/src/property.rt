/// A property of an event that the predefined push rules ask for, and which an event finds at once.
#[derive(Clone, Copy, Debug, PartialEq, Eq)]
pub enum Property {
    /// `type`.
    Kind,
    /// `state_key`.
    StateKey,
    /// `content.body`.
    Body,
    /// `content.msgtype`.
    MessageType,
    /// `content.membership`.
    Membership,
    /// `content.m\.mentions.user_ids`.
    MentionedUsers,
    /// `content.m\.mentions.room`.
    MentionsRoom,
    /// `content.m\.relates_to.rel_type`.
    RelationType,
}
