/// An unread event of a thread.
#[derive(Clone, Copy, Debug, PartialEq, Eq)]
pub struct Row {
    /// The event's position, from 1.
    pub position: u64,
    /// Whether the event is highlighted.
    pub highlight: bool,
}
