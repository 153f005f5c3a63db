ghost use Rattle.std.specs.Prelude.{◌≡◌, ◌<◌, ◌&&◌, ◌||◌, true, false, if◌then◌else◌, [], ◌∷◌};
ghost use Rattle.std.specs.Prelude.{◌++◌, is_ok, length, All, slice_get, Some, None};
ghost use Rattle.std.specs.Map.{lookup};
ghost use Rattle.indexmap.specs.IndexMap.{set_value_at};
ghost use Rattle.mx_rows.specs.declared.thread_key.ThreadKey.{ThreadKey};
ghost use Rattle.mx_rows.specs.declared.thread_rows.ThreadRows.{ThreadRows};
ghost use Rattle.mx_rows.specs.Plain.{are_needed, AreDistinct, Entry, InOrder, reserved_in};
ghost use Rattle.mx_rows.specs.Plain.{rows_in};
ghost use Rattle.mx_rows.specs.Threads.{same_thread};

use crate::row::Row;
use crate::thread_key::ThreadKey;
use crate::thread_rows::ThreadRows;
use crate::threads::{Threads, place_of, settle};
use mx_json::OutOfMemory;
use std::alloc::Global;

/// Makes capacity for one row of the thread at the index.
pub fn reserve_at(threads: &mut Threads, index: usize) -> Result<(), OutOfMemory>
    requires order { InOrder threads.old.entries }
    requires within { index < length threads.old.entries }
    requires needed { are_needed threads.old.entries ≡ true }
    ensures needed { are_needed threads.new.entries ≡ true }
    ensures order { InOrder threads.new.entries }
    ensures once { AreDistinct threads.new.entries }
    ensures rows { (t : ThreadKey) → rows_in threads.new.entries t ≡ rows_in threads.old.entries t }
    ensures capacity { (e : Entry) (t : ThreadKey) → slice_get threads.old.entries index ≡ Some e
        → reserved_in threads.new.entries t
        ≡ (reserved_in threads.old.entries t || (is_ok result && same_thread e.0 t)) }
{
    let (_, kept) = threads.pair_mut(index);
    kept.reserve()
}

/// Keeps a thread that isn't kept yet, with capacity for one row.
pub fn keep_reserved(
    threads: &mut Threads,
    alloc: Global,
    thread: &ThreadKey,
) -> Result<(), OutOfMemory>
    requires order { InOrder threads.old.entries }
    requires once { AreDistinct threads.old.entries }
    requires absent { lookup (same_thread thread.now) threads.old.entries ≡ None }
    requires needed { are_needed threads.old.entries ≡ true }
    ensures needed { are_needed threads.new.entries ≡ true }
    ensures order { InOrder threads.new.entries }
    ensures once { AreDistinct threads.new.entries }
    ensures rows { (t : ThreadKey) → rows_in threads.new.entries t ≡ rows_in threads.old.entries t }
    ensures capacity { (t : ThreadKey) → reserved_in threads.new.entries t
        ≡ (reserved_in threads.old.entries t || (is_ok result && same_thread thread.now t)) }
{
    let kept = ThreadRows::reserved(alloc)?;
    threads.insert(thread.copied(alloc)?, kept)?;
    Ok(())
}

/// Appends a row to the thread at the index, and uses its capacity up. The thread then stands where
/// its first row puts it.
pub fn push_at(threads: &mut Threads, index: usize, row: Row)
    requires order { InOrder threads.old.entries }
    requires within { index < length threads.old.entries }
    requires capacity { (e : Entry) → slice_get threads.old.entries index ≡ Some e
        → e.1.reserved ≡ true }
    requires above { (e : Entry) → slice_get threads.old.entries index ≡ Some e
        → All (λ before. before.position < row.position) e.1.rows.items }
    requires needed { are_needed threads.old.entries ≡ true }
    ensures needed { are_needed threads.new.entries ≡ true }
    ensures order { InOrder threads.new.entries }
    ensures once { AreDistinct threads.new.entries }
    ensures rows { (e : Entry) (t : ThreadKey) → slice_get threads.old.entries index ≡ Some e
        → rows_in threads.new.entries t ≡ (if same_thread e.0 t
        then rows_in threads.old.entries t ++ row ∷ [] else rows_in threads.old.entries t) }
    ensures capacity { (e : Entry) (t : ThreadKey) → slice_get threads.old.entries index ≡ Some e
        → reserved_in threads.new.entries t
        ≡ (if same_thread e.0 t then false else reserved_in threads.old.entries t) }
{
    if threads[index].has_rows() {
        push_in_place(threads, index, row);
    } else {
        let to = place_of(threads, index, u128::from(row.position));
        push_in_place(threads, index, row);
        settle(threads, index, to);
    }
}

/// Appends a row to the thread at the index.
fn push_in_place(threads: &mut Threads, index: usize, row: Row)
    requires within { index < length threads.old.entries }
    requires capacity { (e : Entry) → slice_get threads.old.entries index ≡ Some e
        → e.1.reserved ≡ true }
    requires above { (e : Entry) → slice_get threads.old.entries index ≡ Some e
        → All (λ before. before.position < row.position) e.1.rows.items }
    ensures long { length threads.new.entries ≡ length threads.old.entries }
    ensures entries { (e : Entry) → slice_get threads.old.entries index ≡ Some e
        → (kept : ThreadRows) × (threads.new.entries ≡ set_value_at threads.old.entries index kept)
        × (kept.rows.items ≡ e.1.rows.items ++ row ∷ []) }
    ensures once { AreDistinct threads.new.entries }
    ensures rows { (e : Entry) (t : ThreadKey) → slice_get threads.old.entries index ≡ Some e
        → rows_in threads.new.entries t ≡ (if same_thread e.0 t
        then rows_in threads.old.entries t ++ row ∷ [] else rows_in threads.old.entries t) }
    ensures capacity { (e : Entry) (t : ThreadKey) → slice_get threads.old.entries index ≡ Some e
        → reserved_in threads.new.entries t
        ≡ (if same_thread e.0 t then false else reserved_in threads.old.entries t) }
{
    let (_, kept) = threads.pair_mut(index);
    kept.push(row);
}
