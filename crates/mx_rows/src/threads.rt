ghost use Rattle.std.specs.Prelude.{◌≡◌, ℕ, ◌+◌, ◌<◌, ◌≤◌, if◌then◌else◌, List, [], length, insert};
ghost use Rattle.std.specs.Prelude.{remove, slice_get, slice_index_or, Some};
ghost use Rattle.indexmap.specs.IndexMap.{set_value_at};
ghost use Rattle.mx_rows.specs.declared.thread_key.ThreadKey.{ThreadKey};
ghost use Rattle.mx_rows.specs.declared.thread_rows.ThreadRows.{ThreadRows};
ghost use Rattle.mx_rows.specs.Plain.{are_needed, AreDistinct, Entry, highlights_left_to_cut};
ghost use Rattle.mx_rows.specs.Plain.{InOrder, is_spent, IsPlace, reserved_in, rows_in};
ghost use Rattle.mx_rows.specs.Plain.{rows_left_to_cut, start_at};
ghost use Rattle.mx_rows.specs.Rows.{above, counts_in, start_of, upto};
ghost use Rattle.mx_rows.specs.Threads.{same_thread};

use crate::row::Row;
use crate::thread_key::ThreadKey;
use crate::thread_rows::ThreadRows;
use indexmap::IndexMap;

/// Threads with their rows, in the order of their first rows; those without rows come last.
pub type Threads = IndexMap<ThreadKey, ThreadRows>;

/// The rows of a thread, and none where it isn't kept.
pub fn rows_of<'a>(threads: &'a Threads, thread: &ThreadKey) -> &'a [Row]
    ensures { result.now ≡ rows_in threads.now.entries thread.now }
{
    match threads.get(thread) {
        Some(kept) => &kept.rows,
        None => &[],
    }
}

/// How many threads start at or below this.
pub fn threads_upto(threads: &Threads, start: u128) -> usize
    requires { InOrder threads.now.entries }
    ensures within { result ≤ length threads.now.entries }
    ensures before { (k : ℕ) (d : Entry) → k < result
        → start_at (slice_index_or threads.now.entries k d) ≤ start }
    ensures after { (k : ℕ) (d : Entry) → result ≤ k → k < length threads.now.entries
        → start < start_at (slice_index_or threads.now.entries k d) }
{
    threads.partition_point(|_key, kept| kept.start() <= start)
}

/// Where the thread at the index stands among the others, once it starts there.
pub fn place_of(threads: &Threads, index: usize, start: u128) -> usize
    requires order { InOrder threads.now.entries }
    requires within { index < length threads.now.entries }
    ensures { IsPlace threads.now.entries index start result }
{
    let upto = threads_upto(threads, start);
    if index < upto { upto - 1 } else { upto }
}

/// Puts the thread at the index where it belongs, or takes it out where nothing is left of it.
pub fn settle(threads: &mut Threads, index: usize, to: usize)
    requires from { index < length threads.old.entries }
    requires to { to < length threads.old.entries }
    requires once { AreDistinct threads.old.entries }
    ensures entries { (e : Entry) → slice_get threads.old.entries index ≡ Some e
        → threads.new.entries ≡ (if is_spent e.1 then remove threads.old.entries index
        else insert (remove threads.old.entries index) to e) }
    ensures once { AreDistinct threads.new.entries }
    ensures rows { (t : ThreadKey) → rows_in threads.new.entries t ≡ rows_in threads.old.entries t }
    ensures capacity { (t : ThreadKey)
        → reserved_in threads.new.entries t ≡ reserved_in threads.old.entries t }
{
    if threads[index].is_spent() {
        threads.shift_remove_index(index);
    } else {
        threads.move_index(index, to);
    }
}
