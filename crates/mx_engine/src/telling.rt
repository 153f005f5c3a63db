ghost use Rattle.std.specs.Prelude.{◌≡◌, ◌<◌, ◌++◌, ℕ, List, All, IfOk, OnOk};
ghost use Rattle.std.specs.List.{IsDistinct};
ghost use Rattle.std.specs.Map.{keys_of};
ghost use Rattle.std.specs.Str.{bytes_eq};
ghost use Rattle.mx_event.specs.Event.{room_id_of};
ghost use Rattle.mx_room.specs.Rooms.{room_at};
ghost use Rattle.mx_engine.specs.KeptRows.{AreUnreadRows, list_at};
ghost use Rattle.mx_engine.specs.Planning.{mover_of, row_added, rows_moved};
ghost use Rattle.mx_engine.specs.Telling.{said_in, HasCapacityForAll};

use crate::kept_rows::UnreadRows;
use mx_event::Event;
use mx_json::{IdError, OutOfMemory, RoomId, UserId};
use mx_room::Rooms;
use mx_rows::{Rows, ThreadKey};
use std::alloc::Global;

/// Makes capacity for a row of each of these users in a thread of a room.
pub(crate) fn reserve_rows<R: Rows>(
    unread: &mut UnreadRows<R>,
    alloc: Global,
    users: &[(UserId, bool)],
    room: &RoomId,
    thread: &ThreadKey,
) -> Result<(), OutOfMemory>
    ensures unread { unread.new.unread ≡ unread.old.unread }
    ensures kept { AreUnreadRows unread.old.unread → AreUnreadRows unread.new.unread }
    ensures capacity { OnOk result
        (HasCapacityForAll unread.new.capacity room.now thread.now (keys_of users.now)) }
{
    for user in users {
        unread.reserve(alloc, &user.0, room, thread)?;
    }
    Ok(())
}

/// Adds the row of an event at this position to its thread, for each of these users. Takes no
/// memory.
pub(crate) fn push_rows<R: Rows>(
    unread: &mut UnreadRows<R>,
    users: &[(UserId, bool)],
    room: &RoomId,
    thread: &ThreadKey,
    position: u64,
)
    requires capacity { HasCapacityForAll unread.old.capacity room.now thread.now
        (keys_of users.now) }
    requires distinct { IsDistinct bytes_eq (keys_of users.now) }
    requires above { (u r : List ℕ) (t : ThreadKey)
        → All (λ row. row.position < position) (list_at unread.old.unread u r t) }
    ensures lists { (u r : List ℕ) (t : ThreadKey) → list_at unread.new.unread u r t
        ≡ list_at unread.old.unread u r t
        ++ row_added position room.now thread.now (said_in users.now) u r t }
    ensures kept { AreUnreadRows unread.old.unread → AreUnreadRows unread.new.unread }
{
    for user in users {
        unread.push(&user.0, room, thread, position, user.1);
    }
}

/// Cuts the room of a mover, where there is one, at this position. Takes no memory.
pub(crate) fn cut_mover<R: Rows>(
    unread: &mut UnreadRows<R>,
    mover: Option<UserId>,
    room: &RoomId,
    position: u64,
)
    ensures lists { (u r : List ℕ) (t : ThreadKey) → list_at unread.new.unread u r t
        ≡ rows_moved position room.now mover u r (list_at unread.old.unread u r t) }
    ensures kept { AreUnreadRows unread.old.unread → AreUnreadRows unread.new.unread }
{
    if let Some(mover) = mover {
        unread.cut_room(&mover, room, position);
    }
}

/// The user whose membership of its room an event changes, and not to an invitation.
pub(crate) fn mover_of(
    alloc: Global,
    event: &Event,
    rooms: &Rooms,
) -> Result<Option<UserId>, OutOfMemory>
    ensures { IfOk result (λ mover. mover
        ≡ mover_of (room_at rooms.now.states (room_id_of event.now)) event.now) }
{
    let Some((named, membership)) = event.membership() else {
        return Ok(None);
    };
    if membership == rooms.membership(event.room_id(), named) || membership == "invite" {
        return Ok(None);
    }
    match UserId::read(alloc, named) {
        Ok(mover) => Ok(Some(mover)),
        Err(IdError::BadId) => Ok(None),
        Err(IdError::OutOfMemory) => Err(OutOfMemory),
    }
}
