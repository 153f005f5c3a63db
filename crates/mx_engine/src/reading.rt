ghost use Rattle.std.specs.Prelude.{◌≡◌, ℕ, List, IfOk};
ghost use Rattle.mx_rows.specs.declared.thread_key.ThreadKey.{ThreadKey};
ghost use Rattle.mx_thread.specs.Place.{place_in};
ghost use Rattle.mx_engine.specs.KeptRows.{AreUnreadRows, list_at};
ghost use Rattle.mx_engine.specs.Planning.{read_planned, rows_with_read};
ghost use Rattle.mx_engine.specs.Reading.{is_read_at, IsReadUpto, refusal_at};

use crate::kept_rows::UnreadRows;
use crate::plan::ReadPlan;
use mx_json::{EventId, OutOfMemory, RoomId};
use mx_records::Refusal;
use mx_rows::{Rows, ThreadKey};
use mx_thread::{Place, Threads};
use std::alloc::Global;

/// The position up to which a receipt for this event of a room reads, or why it is refused.
pub(crate) fn read_upto(
    places: &Threads,
    room: &RoomId,
    event: &EventId,
    thread: &Option<ThreadKey>,
) -> Result<u64, Refusal>
    ensures { let place = place_in places.now.places event.now in
        IsReadUpto (refusal_at room.now event.now thread.now place) place result }
{
    let Some(place) = places.place_of(event) else {
        return Err(Refusal::UnknownEvent);
    };
    if place.room != *room {
        return Err(Refusal::UnknownEvent);
    }
    match thread {
        Some(thread) if !is_read_at(place, event, thread) => Err(Refusal::NotInThread),
        _ => Ok(place.position),
    }
}

/// Whether the event of this place is in the thread, or is its root.
fn is_read_at(place: &Place, event: &EventId, thread: &ThreadKey) -> bool
    ensures { result ≡ is_read_at place.now event.now thread.now }
{
    match thread {
        ThreadKey::Main => *thread == place.thread,
        ThreadKey::Root(root) => *thread == place.thread || root == event,
    }
}

/// The thread that a receipt names, if any, as a key of its own.
pub(crate) fn copied(
    alloc: Global,
    thread: &Option<ThreadKey>,
) -> Result<Option<ThreadKey>, OutOfMemory>
    ensures { IfOk result (λ copied. copied ≡ thread.now) }
{
    match thread {
        Some(thread) => Ok(Some(thread.copied(alloc)?)),
        None => Ok(None),
    }
}

/// Drops the rows that a receipt reads. Takes no memory.
pub(crate) fn cut_read<R: Rows>(unread: &mut UnreadRows<R>, plan: ReadPlan)
    ensures lists { (u r : List ℕ) (t : ThreadKey) → list_at unread.new.unread u r t
        ≡ rows_with_read (read_planned plan) u r t (list_at unread.old.unread u r t) }
    ensures kept { AreUnreadRows unread.new.unread }
{
    match &plan.thread {
        Some(thread) => unread.cut(&plan.user, &plan.room, thread, plan.upto),
        None => unread.cut_room(&plan.user, &plan.room, plan.upto),
    }
}
