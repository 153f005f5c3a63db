/// What a poll of an exchange answers.
#[derive(Clone, Copy, Debug, PartialEq, Eq)]
pub enum Turn {
    /// A byte was sent or received, and the exchange goes on.
    Moved,
    /// The link has to wait.
    NotYet,
    /// The exchange is done.
    Done(Ending),
}

/// How an exchange ends.
#[derive(Clone, Copy, Debug, PartialEq, Eq)]
pub enum Ending {
    /// A whole reply came, with this status.
    Reply(u16),
    /// There is no reply.
    Failed(Cause),
}

/// Why there is no reply.
#[derive(Clone, Copy, Debug, PartialEq, Eq)]
pub enum Cause {
    /// The link failed.
    Link,
    /// The bytes are no reply.
    NotReply,
    /// 65,536 bytes hold no whole reply.
    TooLong,
    /// The link ended before a whole reply.
    Early,
    /// 60,000 milliseconds went by.
    Late,
}
