ghost use Rattle.std.specs.Prelude.{◌≡◌, ◌<◌, ◌||◌, ◌&&◌, ◌++◌, ◌∷◌, [], List, ℕ, if◌then◌else◌};
ghost use Rattle.std.specs.Prelude.{true, false, is_ok, None, map, slice_get, All, IfNone, IfSome};
ghost use Rattle.std.specs.FinMap.{empty};
ghost use Rattle.std.specs.List.{IsDistinct};
ghost use Rattle.std.specs.Map.{keys_of, lookup};
ghost use Rattle.std.specs.Option.{option_copied};
ghost use Rattle.std.specs.Str.{bytes_eq};
ghost use Rattle.mx_rows.specs.Rows.{above, counts_in, with_rows};
ghost use Rattle.mx_rows.specs.declared.thread_key.ThreadKey.{ThreadKey};
ghost use Rattle.mx_engine.specs.KeptRows.{AreUnreadRows, AreUsersRows, has_capacity};
ghost use Rattle.mx_engine.specs.KeptRows.{is_users_room, is_users_thread, list_at, threads_in};
ghost use Rattle.mx_engine.specs.KeptRows.{unread_view};
ghost use Rattle.mx_records.specs.Snapshot.{rows_at, rows_by_thread};

use crate::user_rows::UserRows;
use mx_json::{OutOfMemory, RoomId, UserId};
use mx_rows::{Counts, Rows, ThreadKey};
use std::alloc::Global;
use std::collections::HashMap;
use std::marker::Model;

/// The unread rows of all users, by user and room. Contracts see the rows of each user in each room
/// where the user has any, and the threads for whose next row there is capacity.
///
/// Each call is one or two look-ups by a user's id, and as many by a room's. None walks the users
/// or the rooms. Only `reserve` takes memory.
#[derive(Drop)]
pub struct UnreadRows<R: Rows> {
    users: HashMap<UserId, UserRows<R>>,
}

impl<R: Rows> Model for UnreadRows<R> {
    ghost use Rattle.mx_engine.specs.KeptRows.{UnreadView};

    ghost Value = { UnreadView };

    ghost use Rattle.mx_rows.specs.contracts.row.Row as row;
    ghost use Rattle.mx_rows.specs.contracts.thread_key.ThreadKey as thread;
    ghost use Rattle.std.specs.Coded.{codes};
    ghost use Rattle.std.specs.FinMap as map;
    ghost use Rattle.std.specs.FinSet as set;

    ghost coded = { Prim.hlevel
        (codes, map.code, set.code, row.the_row.coded, thread.the_row.coded) };

    ghost use Rattle.mx_engine.specs.KeptRows.{AreUsersRows, unread_view};

    ghost view = { λ rows. unread_view rows.users.entries };

    ghost invariant = { λ rows. AreUsersRows rows.users.entries };
}

impl<R: Rows> UnreadRows<R> {
    /// No rows of any user.
    pub fn new(alloc: Global) -> UnreadRows<R>
        ensures unread { result.unread ≡ empty }
        ensures capacity { result.capacity ≡ empty }
        ensures kept { AreUnreadRows result.unread }
    {
        UnreadRows {
            users: HashMap::new(alloc),
        }
    }

    /// Makes capacity for one row of the user in the thread of the room.
    ///
    /// # Errors
    ///
    /// `OutOfMemory` where the allocator has none.
    pub fn reserve(
        &mut self,
        alloc: Global,
        user: &UserId,
        room: &RoomId,
        thread: &ThreadKey,
    ) -> Result<(), OutOfMemory>
        ensures unread { self.new.unread ≡ self.old.unread }
        ensures capacity { (u r : List ℕ) (t : ThreadKey) → has_capacity self.new.capacity u r t
            ≡ (has_capacity self.old.capacity u r t
            || (is_ok result && is_users_thread user.now room.now thread.now u r t)) }
        ensures kept { AreUnreadRows self.new.unread }
    {
        match self.users.get_mut(user) {
            Some(rows) => rows.reserve(alloc, room, thread),
            None => enter(&mut self.users, alloc, user, room, thread),
        }
    }

    /// Appends a row of the user to the thread of the room, and uses its capacity up. The position
    /// stands above all rows of the user in the room, whatever their threads. Takes no memory.
    pub fn push(
        &mut self,
        user: &UserId,
        room: &RoomId,
        thread: &ThreadKey,
        position: u64,
        highlight: bool,
    )
        requires capacity { has_capacity self.old.capacity user.now room.now thread.now ≡ true }
        requires above { (t : ThreadKey) → All (λ row. row.position < position)
            (list_at self.old.unread user.now room.now t) }
        ensures lists { (u r : List ℕ) (t : ThreadKey) → list_at self.new.unread u r t
            ≡ (if is_users_thread user.now room.now thread.now u r t
            then list_at self.old.unread u r t
            ++ record { position = position; highlight = highlight } ∷ []
            else list_at self.old.unread u r t) }
        ensures capacity { (u r : List ℕ) (t : ThreadKey) → has_capacity self.new.capacity u r t
            ≡ (if is_users_thread user.now room.now thread.now u r t
            then false else has_capacity self.old.capacity u r t) }
        ensures kept { AreUnreadRows self.new.unread }
    {
        match self.users.get_mut(user) {
            Some(rows) => rows.push(room, thread, position, highlight),
            None => unreachable!(),
        }
    }

    /// Drops the user's rows at or below the position in the thread of the room. Takes no memory.
    pub fn cut(&mut self, user: &UserId, room: &RoomId, thread: &ThreadKey, position: u64)
        ensures lists { (u r : List ℕ) (t : ThreadKey) → list_at self.new.unread u r t
            ≡ (if is_users_thread user.now room.now thread.now u r t
            then above position (list_at self.old.unread u r t)
            else list_at self.old.unread u r t) }
        ensures capacity { (u r : List ℕ) (t : ThreadKey)
            → has_capacity self.new.capacity u r t ≡ has_capacity self.old.capacity u r t }
        ensures kept { AreUnreadRows self.new.unread }
    {
        let Some(rows) = self.users.get_mut(user) else {
            return;
        };
        rows.cut(room, thread, position);
    }

    /// Drops the user's rows at or below the position in every thread of the room. Takes no memory.
    pub fn cut_room(&mut self, user: &UserId, room: &RoomId, position: u64)
        ensures lists { (u r : List ℕ) (t : ThreadKey) → list_at self.new.unread u r t
            ≡ (if is_users_room user.now room.now u r
            then above position (list_at self.old.unread u r t)
            else list_at self.old.unread u r t) }
        ensures capacity { (u r : List ℕ) (t : ThreadKey)
            → has_capacity self.new.capacity u r t ≡ has_capacity self.old.capacity u r t }
        ensures kept { AreUnreadRows self.new.unread }
    {
        let Some(rows) = self.users.get_mut(user) else {
            return;
        };
        rows.cut_room(room, position);
    }

    /// The rows of the user in the room; `None` only where there are none.
    pub fn rows(&self, user: &UserId, room: &RoomId) -> Option<&R>
        ensures rows { IfSome result (λ rows.
            rows_by_thread (R.list rows.now) (with_rows (R.list rows.now) (R.threads rows.now))
            ≡ rows_at self.now.unread user.now room.now) }
        ensures lists { IfSome result (λ rows. (t : ThreadKey)
            → R.list rows.now t ≡ list_at self.now.unread user.now room.now t) }
        ensures none { IfNone result (rows_at self.now.unread user.now room.now ≡ []) }
    {
        match self.users.get(user) {
            Some(rows) => rows.rows(room),
            None => None,
        }
    }

    /// How many unread rows the user has in the thread of the room, and how many of them are
    /// highlighted.
    pub fn counts(&self, user: &UserId, room: &RoomId, thread: &ThreadKey) -> Counts
        ensures { result ≡ counts_in (list_at self.now.unread user.now room.now thread.now) }
    {
        match self.rows(user, room) {
            Some(rows) => rows.counts(thread),
            None => Counts {
                notify: 0,
                highlight: 0,
            },
        }
    }

    /// The threads of the room in which the user has unread rows, in the order of their first rows;
    /// `k` counts from 0, and `None` comes exactly past the last.
    pub fn thread_at(&self, user: &UserId, room: &RoomId, k: usize) -> Option<&ThreadKey>
        ensures { option_copied result
            ≡ slice_get (threads_in (rows_at self.now.unread user.now room.now)) k }
    {
        match self.rows(user, room) {
            Some(rows) => rows.thread_at(k),
            None => None,
        }
    }
}

// Makes capacity for one row of a user of whom none are kept.
fn enter<R: Rows>(
    users: &mut HashMap<UserId, UserRows<R>>,
    alloc: Global,
    user: &UserId,
    room: &RoomId,
    thread: &ThreadKey,
) -> Result<(), OutOfMemory>
    requires absent { lookup (bytes_eq user.now) users.old.entries ≡ None }
    requires kept { AreUsersRows users.old.entries }
    ensures kept { AreUsersRows users.new.entries }
    ensures unread { (unread_view users.new.entries).unread
        ≡ (unread_view users.old.entries).unread }
    ensures capacity { (u r : List ℕ) (t : ThreadKey)
        → has_capacity (unread_view users.new.entries).capacity u r t
        ≡ (has_capacity (unread_view users.old.entries).capacity u r t
        || (is_ok result && is_users_thread user.now room.now thread.now u r t)) }
{
    let mut rows = UserRows::new(alloc);
    rows.reserve(alloc, room, thread)?;
    users.insert(user.copied(alloc)?, rows)?;
    Ok(())
}
