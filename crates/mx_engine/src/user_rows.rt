ghost use Rattle.std.specs.Prelude.{◌≡◌, ◌<◌, ◌||◌, ◌&&◌, ◌++◌, ◌∷◌, [], List, ℕ, if◌then◌else◌};
ghost use Rattle.std.specs.Prelude.{true, false, is_ok, None, All, IfNone, IfOk, IfSome};
ghost use Rattle.std.specs.FinMap.{empty};
ghost use Rattle.std.specs.List.{IsDistinct};
ghost use Rattle.std.specs.Map.{keys_of, lookup};
ghost use Rattle.std.specs.Option.{option_map_or};
ghost use Rattle.std.specs.Str.{bytes_eq};
ghost use Rattle.mx_rows.specs.Rows.{above, with_rows};
ghost use Rattle.mx_rows.specs.Threads.{same_thread};
ghost use Rattle.mx_rows.specs.declared.thread_key.ThreadKey.{ThreadKey};
ghost use Rattle.mx_engine.specs.KeptRows.{AreUserRows, has_capacity_in, is_thread, list_in};
ghost use Rattle.mx_engine.specs.KeptRows.{rows_in, user_view};
ghost use Rattle.mx_records.specs.Snapshot.{rows_by_thread};

use mx_json::{OutOfMemory, RoomId};
use mx_rows::{Rows, ThreadKey};
use std::alloc::Global;
use std::collections::HashMap;
use std::marker::Model;

/// The unread rows of one user, by room. Contracts see the rows of each room that has any, and the
/// threads for whose next row there is capacity.
///
/// Each call is one or two look-ups by a room's id. None walks the rooms.
#[derive(Drop)]
pub(crate) struct UserRows<R: Rows> {
    rooms: HashMap<RoomId, R>,
}

impl<R: Rows> Model for UserRows<R> {
    ghost use Rattle.mx_engine.specs.KeptRows.{UserRowsView};

    ghost Value = { UserRowsView };

    ghost use Rattle.mx_rows.specs.contracts.row.Row as row;
    ghost use Rattle.mx_rows.specs.contracts.thread_key.ThreadKey as thread;
    ghost use Rattle.std.specs.Coded.{codes};
    ghost use Rattle.std.specs.FinMap as map;
    ghost use Rattle.std.specs.FinSet as set;

    ghost coded = { Prim.hlevel
        (codes, map.code, set.code, row.the_row.coded, thread.the_row.coded) };

    ghost use Rattle.mx_engine.specs.KeptRows.{AreRooms, user_view};

    ghost view = { λ rows. user_view R.list R.has_capacity R.threads rows.rooms.entries };

    ghost invariant = { λ rows. AreRooms R.list R.threads rows.rooms.entries };
}

impl<R: Rows> UserRows<R> {
    /// No rows in any room.
    pub(crate) fn new(alloc: Global) -> UserRows<R>
        ensures rooms { result.rooms ≡ empty }
        ensures capacity { result.capacity ≡ empty }
        ensures kept { AreUserRows result.rooms }
    {
        UserRows {
            rooms: HashMap::new(alloc),
        }
    }

    /// Makes capacity for one row of the thread of the room.
    ///
    /// # Errors
    ///
    /// `OutOfMemory` where the allocator has none.
    pub(crate) fn reserve(
        &mut self,
        alloc: Global,
        room: &RoomId,
        thread: &ThreadKey,
    ) -> Result<(), OutOfMemory>
        ensures rooms { self.new.rooms ≡ self.old.rooms }
        ensures capacity { (r : List ℕ) (t : ThreadKey) → has_capacity_in self.new.capacity r t
            ≡ (has_capacity_in self.old.capacity r t
            || (is_ok result && is_thread room.now thread.now r t)) }
        ensures kept { AreUserRows self.new.rooms }
    {
        match self.rooms.get_mut(room) {
            Some(rows) => rows.reserve(alloc, thread),
            None => enter(&mut self.rooms, alloc, room, thread),
        }
    }

    /// Appends a row to the thread of the room, and uses its capacity up. The position stands above
    /// all rows of the room, whatever their threads. Takes no memory.
    pub(crate) fn push(&mut self, room: &RoomId, thread: &ThreadKey, position: u64, highlight: bool)
        requires capacity { has_capacity_in self.old.capacity room.now thread.now ≡ true }
        requires above { (t : ThreadKey) → All (λ row. row.position < position)
            (list_in self.old.rooms room.now t) }
        ensures lists { (r : List ℕ) (t : ThreadKey) → list_in self.new.rooms r t
            ≡ (if is_thread room.now thread.now r t
            then list_in self.old.rooms r t
            ++ record { position = position; highlight = highlight } ∷ []
            else list_in self.old.rooms r t) }
        ensures capacity { (r : List ℕ) (t : ThreadKey) → has_capacity_in self.new.capacity r t
            ≡ (if is_thread room.now thread.now r t
            then false else has_capacity_in self.old.capacity r t) }
        ensures kept { AreUserRows self.new.rooms }
    {
        match self.rooms.get_mut(room) {
            Some(rows) => rows.push(thread, position, highlight),
            None => unreachable!(),
        }
    }

    /// Drops the rows at or below the position in the thread of the room. Takes no memory.
    pub(crate) fn cut(&mut self, room: &RoomId, thread: &ThreadKey, position: u64)
        ensures lists { (r : List ℕ) (t : ThreadKey) → list_in self.new.rooms r t
            ≡ (if is_thread room.now thread.now r t
            then above position (list_in self.old.rooms r t) else list_in self.old.rooms r t) }
        ensures capacity { (r : List ℕ) (t : ThreadKey)
            → has_capacity_in self.new.capacity r t ≡ has_capacity_in self.old.capacity r t }
        ensures kept { AreUserRows self.new.rooms }
    {
        let Some(rows) = self.rooms.get_mut(room) else {
            return;
        };
        rows.cut(thread, position);
    }

    /// Drops the rows at or below the position in every thread of the room. Takes no memory.
    pub(crate) fn cut_room(&mut self, room: &RoomId, position: u64)
        ensures lists { (r : List ℕ) (t : ThreadKey) → list_in self.new.rooms r t
            ≡ (if bytes_eq room.now r
            then above position (list_in self.old.rooms r t) else list_in self.old.rooms r t) }
        ensures capacity { (r : List ℕ) (t : ThreadKey)
            → has_capacity_in self.new.capacity r t ≡ has_capacity_in self.old.capacity r t }
        ensures kept { AreUserRows self.new.rooms }
    {
        let Some(rows) = self.rooms.get_mut(room) else {
            return;
        };
        rows.cut_all(position);
    }

    /// The rows of the room; `None` only where it has none.
    pub(crate) fn rows(&self, room: &RoomId) -> Option<&R>
        ensures rows { IfSome result (λ rows.
            rows_by_thread (R.list rows.now) (with_rows (R.list rows.now) (R.threads rows.now))
            ≡ rows_in self.now.rooms room.now) }
        ensures lists { IfSome result (λ rows. (t : ThreadKey)
            → R.list rows.now t ≡ list_in self.now.rooms room.now t) }
        ensures none { IfNone result (rows_in self.now.rooms room.now ≡ []) }
    {
        match self.rooms.get(room) {
            Some(rows) => Some(rows),
            None => None,
        }
    }
}

// Makes capacity for one row of the thread of a room that isn't kept.
fn enter<R: Rows>(
    rooms: &mut HashMap<RoomId, R>,
    alloc: Global,
    room: &RoomId,
    thread: &ThreadKey,
) -> Result<(), OutOfMemory>
    requires absent { lookup (bytes_eq room.now) rooms.old.entries ≡ None }
    requires distinct { IsDistinct bytes_eq (keys_of rooms.old.entries) }
    ensures distinct { IsDistinct bytes_eq (keys_of rooms.new.entries) }
    ensures lists { (r : List ℕ) (t : ThreadKey)
        → option_map_or (λ rows. R.list rows t) (lookup (bytes_eq r) rooms.new.entries) []
        ≡ option_map_or (λ rows. R.list rows t) (lookup (bytes_eq r) rooms.old.entries) [] }
    ensures capacity { (r : List ℕ) (t : ThreadKey)
        → option_map_or (λ rows. R.has_capacity rows t) (lookup (bytes_eq r) rooms.new.entries)
        false
        ≡ (option_map_or (λ rows. R.has_capacity rows t) (lookup (bytes_eq r) rooms.old.entries)
        false || (is_ok result && is_thread room.now thread.now r t)) }
{
    let mut rows = R::empty(alloc)?;
    rows.reserve(alloc, thread)?;
    rooms.insert(room.copied(alloc)?, rows)?;
    Ok(())
}
