ghost use Rattle.std.specs.Prelude.{◌≡◌, ℕ, ◌<◌, ◌≤◌, nat_le, if◌then◌else◌, length, insert};
ghost use Rattle.std.specs.Prelude.{remove, slice_get, slice_index_or, Some};
ghost use Rattle.std.specs.List.Sorted.{IsPartitionedBy};
ghost use Rattle.mx_rows.specs.declared.thread_key.ThreadKey.{ThreadKey};
ghost use Rattle.mx_blocks.specs.declared.thread_rows.ThreadRows.{ThreadRows};
ghost use Rattle.mx_blocks.specs.Entries.{AreDistinct, Entry, hot_in, is_spent, IsPlace};
ghost use Rattle.mx_blocks.specs.Entries.{reserved_in, rows_in, start_at};

use crate::thread_rows::ThreadRows;
use indexmap::IndexMap;
use mx_rows::ThreadKey;

/// Threads with their rows, in the order of their first rows; those without rows come last.
pub type Threads = IndexMap<ThreadKey, ThreadRows>;

/// How many threads start at or below this, where those that do come first.
pub fn threads_upto(threads: &Threads, start: u128) -> usize
    requires { IsPartitionedBy (λ e. nat_le (start_at e) start) threads.now.entries }
    ensures within { result ≤ length threads.now.entries }
    ensures before { (k : ℕ) (d : Entry) → k < result
        → start_at (slice_index_or threads.now.entries k d) ≤ start }
    ensures after { (k : ℕ) (d : Entry) → result ≤ k → k < length threads.now.entries
        → start < start_at (slice_index_or threads.now.entries k d) }
{
    threads.partition_point(|_key, kept| kept.start() <= start)
}

/// Where the thread at the index stands among the others, once it starts there.
pub fn place_of(threads: &Threads, index: usize, start: u128) -> usize
    requires order { IsPartitionedBy (λ e. nat_le (start_at e) start) threads.now.entries }
    requires within { index < length threads.now.entries }
    ensures { IsPlace threads.now.entries index start result }
{
    let upto = threads_upto(threads, start);
    if index < upto { upto - 1 } else { upto }
}

/// Puts the thread at the index where it belongs, or takes it out where nothing is left of it.
pub fn settle(threads: &mut Threads, index: usize, to: usize)
    requires from { index < length threads.old.entries }
    requires to { to < length threads.old.entries }
    requires once { AreDistinct threads.old.entries }
    ensures entries { (e : Entry) → slice_get threads.old.entries index ≡ Some e
        → threads.new.entries ≡ (if is_spent e.1 then remove threads.old.entries index
        else insert (remove threads.old.entries index) to e) }
    ensures once { AreDistinct threads.new.entries }
    ensures rows { (t : ThreadKey) → rows_in threads.new.entries t ≡ rows_in threads.old.entries t }
    ensures hot { (t : ThreadKey) → hot_in threads.new.entries t ≡ hot_in threads.old.entries t }
    ensures capacity { (t : ThreadKey)
        → reserved_in threads.new.entries t ≡ reserved_in threads.old.entries t }
{
    if threads[index].is_spent() {
        threads.shift_remove_index(index);
    } else {
        threads.move_index(index, to);
    }
}
