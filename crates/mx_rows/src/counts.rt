/// How many events are unread.
#[derive(Clone, Copy, Debug, PartialEq, Eq)]
pub struct Counts {
    /// The unread events that notify.
    pub notify: u64,
    /// Those of them that are highlighted.
    pub highlight: u64,
}

/// How many rows of a thread are kept in which form.
#[derive(Clone, Copy, Debug, PartialEq, Eq)]
pub struct Sizes {
    /// The rows that may be packed yet.
    pub hot: u64,
    /// The rows that count as packed.
    pub packed: u64,
}
