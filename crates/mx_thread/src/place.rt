use mx_json::RoomId;
use mx_rows::ThreadKey;

/// Where an accepted event is.
#[derive(Debug, Drop)]
pub struct Place {
    /// The event's position, from 1.
    pub position: u64,
    /// Its room.
    pub room: RoomId,
    /// Its thread in that room.
    pub thread: ThreadKey,
}
