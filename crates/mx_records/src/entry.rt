use crate::input::Input;

/// What a journal keeps: an input that was accepted, or how a notification was settled.
#[derive(Drop)]
pub enum Entry {
    /// An input.
    Input(Input),
    /// An outcome of a pusher.
    Outcome(Outcome),
}

/// How a pusher settled the event at a position. A pusher is named by its number.
#[derive(Clone, Copy, Debug, PartialEq, Eq)]
pub enum Outcome {
    /// The gateway took the notification.
    Pushed {
        /// The pusher's number.
        pusher: u64,
        /// The event's position.
        position: u64,
    },
    /// The notification was given up.
    GaveUp {
        /// The pusher's number.
        pusher: u64,
        /// The event's position.
        position: u64,
    },
    /// The gateway rejected the pusher's pushkey.
    Rejected {
        /// The pusher's number.
        pusher: u64,
        /// The event's position.
        position: u64,
    },
}
