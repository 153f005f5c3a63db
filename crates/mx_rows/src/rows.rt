ghost use Rattle.std.specs.Prelude.{◌≡◌, ◌+◌, ◌<◌, ◌≤◌, Bool, true, false, ◌&&◌, ◌||◌};
ghost use Rattle.std.specs.Prelude.{if◌then◌else◌, nat_le, is_ok, List, [], ◌∷◌, ◌++◌, length};
ghost use Rattle.std.specs.Prelude.{drop, slice_get, All, IfOk, OnOk, OnErr, IfSome, IfNone};
ghost use Rattle.std.specs.List.{flat_map, IsDistinct};
ghost use Rattle.std.specs.Option.{option_copied};
ghost use Rattle.std.specs.Result.{result_unwrap_or};
ghost use Rattle.mx_rows.specs.declared.row.Row.{Row};
ghost use Rattle.mx_rows.specs.declared.thread_key.ThreadKey.{ThreadKey};
ghost use Rattle.mx_rows.specs.Rows.{above, are_in_order, counts_in, has_rows, is_rising};
ghost use Rattle.mx_rows.specs.Rows.{saturated, upto, with_rows};
ghost use Rattle.mx_rows.specs.Threads.{has_thread, same_thread};

use crate::counts::{Counts, Sizes};
use crate::row::Row;
use crate::thread_key::ThreadKey;
use mx_json::OutOfMemory;
use std::alloc::Global;

/// The unread rows of one user in one room: for each thread a list of rows whose positions rise.
///
/// Rows come hot. `rotate` packs them, which changes no list. `push`, `cut`, `cut_all`, `counts`,
/// `thread_at`, `sizes` and `ripe` take no memory.
pub trait Rows: Drop {
    /// The rows of each thread, oldest first.
    ghost list: { Self → ThreadKey → List Row };

    /// Those of its rows that aren't packed.
    ghost hot: { Self → ThreadKey → List Row };

    /// Whether the thread has capacity for one row more.
    ghost has_capacity: { Self → ThreadKey → Bool };

    /// The threads that are kept, each once: exactly those that have rows or capacity. Those that
    /// have rows stand in the order of their first rows.
    ghost threads: { Self → List ThreadKey };

    /// No rows in any thread.
    ///
    /// # Errors
    ///
    /// `OutOfMemory` where the allocator has none.
    fn empty(alloc: Global) -> Result<Self, OutOfMemory>
        ensures lists { IfOk result (λ rows. (t : ThreadKey) → list rows t ≡ []) }
        ensures capacity { IfOk result (λ rows. (t : ThreadKey) → has_capacity rows t ≡ false) };

    /// Makes capacity for one row of the thread.
    ///
    /// # Errors
    ///
    /// `OutOfMemory` where the allocator has none.
    fn reserve(&mut self, alloc: Global, thread: &ThreadKey) -> Result<(), OutOfMemory>
        ensures lists { (t : ThreadKey) → list self.new t ≡ list self.old t }
        ensures cool { (t : ThreadKey) → length (hot self.new t) ≤ length (hot self.old t) }
        ensures capacity { (t : ThreadKey) → has_capacity self.new t
            ≡ (has_capacity self.old t || (is_ok result && same_thread thread.now t)) };

    /// Appends a row to the thread, and uses its capacity up.
    fn push(&mut self, thread: &ThreadKey, position: u64, highlight: bool)
        requires capacity { has_capacity self.old thread.now ≡ true }
        requires above { All (λ row. row.position < position) (list self.old thread.now) }
        ensures lists { (t : ThreadKey) → list self.new t ≡ (if same_thread thread.now t
            then list self.old t ++ record { position = position; highlight = highlight } ∷ []
            else list self.old t) }
        ensures cool { (t : ThreadKey) → length (hot self.new t)
            ≤ length (hot self.old t) + (if same_thread thread.now t then 1 else 0) }
        ensures capacity { (t : ThreadKey) → has_capacity self.new t
            ≡ (if same_thread thread.now t then false else has_capacity self.old t) };

    /// Drops the thread's rows at or below the position, and answers what it dropped.
    fn cut(&mut self, thread: &ThreadKey, position: u64) -> Counts
        ensures lists { (t : ThreadKey) → list self.new t
            ≡ (if same_thread thread.now t
            then above position (list self.old t) else list self.old t) }
        ensures dropped { result ≡ counts_in (upto position (list self.old thread.now)) }
        ensures cool { (t : ThreadKey) → length (hot self.new t) ≤ length (hot self.old t) }
        ensures capacity { (t : ThreadKey) → has_capacity self.new t ≡ has_capacity self.old t };

    /// Drops the rows at or below the position in every thread, and answers what it dropped; a
    /// count that would pass the end of a `u64` stays there.
    fn cut_all(&mut self, position: u64) -> Counts
        ensures lists { (t : ThreadKey) → list self.new t ≡ above position (list self.old t) }
        ensures dropped { result ≡ saturated (counts_in (upto position
            (flat_map (list self.old) (threads self.old)))) }
        ensures cool { (t : ThreadKey) → length (hot self.new t) ≤ length (hot self.old t) }
        ensures capacity { (t : ThreadKey) → has_capacity self.new t ≡ has_capacity self.old t };

    /// How many rows the thread has, and how many of them are highlighted.
    fn counts(&self, thread: &ThreadKey) -> Counts
        ensures { result ≡ counts_in (list self.now thread.now) };

    /// The threads that have rows, in rising order of the position of the first row that each has
    /// left; `k` counts from 0, and `None` comes exactly past the last.
    fn thread_at(&self, k: usize) -> Option<&ThreadKey>
        ensures { option_copied result
            ≡ slice_get (with_rows (list self.now) (threads self.now)) k };

    /// Appends the thread's rows to `out`, which is as it was after an error.
    ///
    /// # Errors
    ///
    /// `OutOfMemory` where the allocator has none.
    fn rows_into(&self, thread: &ThreadKey, out: &mut Vec<Row>) -> Result<(), OutOfMemory>
        ensures ok { OnOk result (out.new.items ≡ out.old.items ++ list self.now thread.now) }
        ensures err { OnErr result (out.new.items ≡ out.old.items) };

    /// How many rows of the thread are hot, and how many packed.
    fn sizes(&self, thread: &ThreadKey) -> Sizes
        ensures hot { result.hot ≡ length (hot self.now thread.now) }
        ensures all { result.hot + result.packed ≡ length (list self.now thread.now) };

    /// A thread with at least 256 hot rows, and `None` exactly where there is none.
    fn ripe(&self) -> Option<&ThreadKey>
        ensures some { IfSome result (λ t. 256 ≤ length (hot self.now t.now)) }
        ensures none { IfNone result ((t : ThreadKey) → length (hot self.now t) < 256) };

    /// Packs the first 256 hot rows of the thread that are at or below `last`, and answers 256, or
    /// 0 exactly where there are fewer.
    ///
    /// # Errors
    ///
    /// `OutOfMemory` where the allocator has none; nothing is packed then.
    fn rotate(&mut self, alloc: Global, thread: &ThreadKey, last: u64) -> Result<u32, OutOfMemory>
        ensures lists { (t : ThreadKey) → list self.new t ≡ list self.old t }
        ensures answer { IfOk result (λ n. n ≡ (if nat_le 256
            (length (upto last (hot self.old thread.now))) then 256 else 0)) }
        ensures packs { (t : ThreadKey) → hot self.new t ≡ (if same_thread thread.now t
            then drop (result_unwrap_or result 0) (hot self.old t) else hot self.old t) }
        ensures capacity { (t : ThreadKey) → has_capacity self.new t ≡ has_capacity self.old t };

    ghost kept: { (rows : Self) (t : ThreadKey) → has_thread t (threads rows)
        ≡ (has_rows (list rows t) || has_capacity rows t) };

    ghost once: { (rows : Self) → IsDistinct same_thread (threads rows) };

    ghost in_order: { (rows : Self)
        → are_in_order (list rows) (with_rows (list rows) (threads rows)) ≡ true };

    ghost rising: { (rows : Self) (t : ThreadKey) → is_rising (list rows t) ≡ true };

    ghost hot_last: { (rows : Self) (t : ThreadKey)
        → (packed : List Row) × (list rows t ≡ packed ++ hot rows t) };
}
