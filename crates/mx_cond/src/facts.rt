use crate::power::PowerTable;
use mx_event::Event;

/// What a condition is judged by: an event, and what is known of its room for one user, the owner
/// of the rules.
#[derive(Drop)]
pub struct Facts<'a> {
    /// The event.
    pub event: &'a Event,
    /// The owner's display name in the room, if any.
    pub owner_name: Option<&'a str>,
    /// How many members of the room are joined.
    pub joined: u64,
    /// The power of the event's sender.
    pub sender_power: i64,
    /// The room's power levels.
    pub powers: &'a PowerTable,
}
