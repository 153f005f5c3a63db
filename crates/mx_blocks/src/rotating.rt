ghost use Rattle.std.specs.Prelude.{◌≡◌, ◌<◌, ◌≤◌, nat_le, true, if◌then◌else◌, length, drop};
ghost use Rattle.std.specs.Prelude.{slice_get, Some, IfOk, IfSome, IfNone};
ghost use Rattle.std.specs.Result.{result_unwrap_or};
ghost use Rattle.mx_rows.specs.declared.thread_key.ThreadKey.{ThreadKey};
ghost use Rattle.mx_rows.specs.Rows.{upto};
ghost use Rattle.mx_rows.specs.Threads.{same_thread};
ghost use Rattle.mx_blocks.specs.Entries.{are_needed, AreDistinct, Entry, hot_in, InOrder};
ghost use Rattle.mx_blocks.specs.Entries.{reserved_in, rows_in};

use crate::block::BLOCK_ROWS;
use crate::threads::Threads;
use mx_json::OutOfMemory;
use mx_rows::ThreadKey;
use std::alloc::Global;

/// Packs the first 256 hot rows of the thread at the index where so many are at or below `last`,
/// and answers how many it packed.
pub fn rotate_at(
    threads: &mut Threads,
    alloc: Global,
    index: usize,
    last: u64,
) -> Result<u32, OutOfMemory>
    requires order { InOrder threads.old.entries }
    requires within { index < length threads.old.entries }
    requires needed { are_needed threads.old.entries ≡ true }
    ensures needed { are_needed threads.new.entries ≡ true }
    ensures order { InOrder threads.new.entries }
    ensures once { AreDistinct threads.new.entries }
    ensures rows { (t : ThreadKey) → rows_in threads.new.entries t ≡ rows_in threads.old.entries t }
    ensures answer { (e : Entry) → slice_get threads.old.entries index ≡ Some e
        → IfOk result (λ n. n
        ≡ (if nat_le 256 (length (upto last e.1.hot.items)) then 256 else 0)) }
    ensures hot { (e : Entry) (t : ThreadKey) → slice_get threads.old.entries index ≡ Some e
        → hot_in threads.new.entries t ≡ (if same_thread e.0 t
        then drop (result_unwrap_or result 0) (hot_in threads.old.entries t)
        else hot_in threads.old.entries t) }
    ensures capacity { (t : ThreadKey)
        → reserved_in threads.new.entries t ≡ reserved_in threads.old.entries t }
{
    let (_, kept) = threads.pair_mut(index);
    kept.rotate(alloc, last)
}

/// A thread with at least 256 hot rows.
pub fn ripe_thread(threads: &Threads) -> Option<&ThreadKey>
    requires { AreDistinct threads.now.entries }
    ensures some { IfSome result (λ t. 256 ≤ length (hot_in threads.now.entries t.now)) }
    ensures none { IfNone result ((t : ThreadKey) → length (hot_in threads.now.entries t) < 256) }
{
    for k in 0..threads.len() {
        if let Some((thread, kept)) = threads.get_index(k) {
            if kept.hot.len() >= BLOCK_ROWS {
                return Some(thread);
            }
        }
    }
    None
}
