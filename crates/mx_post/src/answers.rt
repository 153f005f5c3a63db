/// What a gateway's reply says of a notification.
#[derive(Clone, Copy, Debug, PartialEq, Eq)]
pub enum Answer {
    /// It wasn't taken.
    Failed,
    /// It was taken.
    Pushed,
    /// The device isn't known any more by the pushkey that was posted.
    Rejected,
}
