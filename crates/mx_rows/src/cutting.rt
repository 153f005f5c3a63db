ghost use Rattle.std.specs.Prelude.{◌≡◌, true, ℕ, ◌+◌, ◌<◌, ◌≤◌, min, if◌then◌else◌, List, []};
ghost use Rattle.std.specs.Prelude.{length, insert, remove, slice_get, slice_index_or, Some};
ghost use Rattle.std.specs.Prelude.{IfSome, IfNone};
ghost use Rattle.indexmap.specs.IndexMap.{set_value_at};
ghost use Rattle.mx_rows.specs.declared.thread_key.ThreadKey.{ThreadKey};
ghost use Rattle.mx_rows.specs.declared.thread_rows.ThreadRows.{ThreadRows};
ghost use Rattle.mx_rows.specs.Plain.{are_needed, AreDistinct, Entry, highlights_left_to_cut};
ghost use Rattle.mx_rows.specs.Plain.{InOrder, is_spent, IsPlace, reserved_in, rows_in};
ghost use Rattle.mx_rows.specs.Plain.{rows_left_to_cut, start_at};
ghost use Rattle.mx_rows.specs.Rows.{above, counts_in, largest_count, start_of, upto};
ghost use Rattle.mx_rows.specs.Threads.{same_thread};

use crate::counts::Counts;
use crate::threads::{Threads, place_of, settle, threads_upto};

/// Drops the rows of the thread at the index that are at or below the position.
fn cut_in_place(threads: &mut Threads, index: usize, position: u64) -> Counts
    requires { index < length threads.old.entries }
    ensures long { length threads.new.entries ≡ length threads.old.entries }
    ensures entries { (e : Entry) → slice_get threads.old.entries index ≡ Some e
        → (cut : ThreadRows) × (threads.new.entries ≡ set_value_at threads.old.entries index cut)
        × (cut.rows.items ≡ above position e.1.rows.items) × (cut.reserved ≡ e.1.reserved) }
    ensures once { AreDistinct threads.new.entries }
    ensures rows { (e : Entry) (t : ThreadKey) → slice_get threads.old.entries index ≡ Some e
        → rows_in threads.new.entries t ≡ (if same_thread e.0 t
        then above position (rows_in threads.old.entries t) else rows_in threads.old.entries t) }
    ensures capacity { (t : ThreadKey)
        → reserved_in threads.new.entries t ≡ reserved_in threads.old.entries t }
    ensures dropped { (e : Entry) → slice_get threads.old.entries index ≡ Some e
        → result ≡ counts_in (upto position e.1.rows.items) }
{
    let (_, kept) = threads.pair_mut(index);
    kept.cut(position)
}

/// Cuts the thread at the index. It then stands where its first row puts it, or is taken out where
/// nothing is left of it.
pub fn cut_at(threads: &mut Threads, index: usize, position: u64) -> Counts
    requires order { InOrder threads.old.entries }
    requires within { index < length threads.old.entries }
    requires needed { are_needed threads.old.entries ≡ true }
    ensures needed { are_needed threads.new.entries ≡ true }
    ensures order { InOrder threads.new.entries }
    ensures once { AreDistinct threads.new.entries }
    ensures rows { (e : Entry) (t : ThreadKey) → slice_get threads.old.entries index ≡ Some e
        → rows_in threads.new.entries t ≡ (if same_thread e.0 t
        then above position (rows_in threads.old.entries t) else rows_in threads.old.entries t) }
    ensures capacity { (t : ThreadKey)
        → reserved_in threads.new.entries t ≡ reserved_in threads.old.entries t }
    ensures dropped { (e : Entry) → slice_get threads.old.entries index ≡ Some e
        → result ≡ counts_in (upto position e.1.rows.items) }
    ensures fewer_rows { rows_left_to_cut position threads.new.entries + result.notify
        ≡ rows_left_to_cut position threads.old.entries }
    ensures fewer_highlights { highlights_left_to_cut position threads.new.entries
        + result.highlight
        ≡ highlights_left_to_cut position threads.old.entries }
{
    let to = place_of(threads, index, threads[index].start_above(position));
    let dropped = cut_in_place(threads, index, position);
    settle(threads, index, to);
    dropped
}

/// Cuts every thread, and answers what all cuts dropped; a count that would pass the end of a `u64`
/// stays there.
pub fn cut_every(threads: &mut Threads, position: u64) -> Counts
    requires order { InOrder threads.old.entries }
    requires once { AreDistinct threads.old.entries }
    requires needed { are_needed threads.old.entries ≡ true }
    ensures needed { are_needed threads.new.entries ≡ true }
    ensures order { InOrder threads.new.entries }
    ensures once { AreDistinct threads.new.entries }
    ensures rows { (t : ThreadKey)
        → rows_in threads.new.entries t ≡ above position (rows_in threads.old.entries t) }
    ensures capacity { (t : ThreadKey)
        → reserved_in threads.new.entries t ≡ reserved_in threads.old.entries t }
    ensures notify { result.notify
        ≡ min (rows_left_to_cut position threads.old.entries) largest_count }
    ensures highlight { result.highlight
        ≡ min (highlights_left_to_cut position threads.old.entries) largest_count }
{
    let mut dropped = Counts {
        notify: 0,
        highlight: 0,
    };
    while let Some(index) = last_upto(threads, position) {
        dropped = plus(dropped, cut_at(threads, index, position));
    }
    dropped
}

/// The last thread whose first row is at or below the position.
fn last_upto(threads: &Threads, position: u64) -> Option<usize>
    requires { InOrder threads.now.entries }
    ensures within { IfSome result (λ index. index < length threads.now.entries) }
    ensures some { IfSome result (λ index. (d : Entry)
        → start_at (slice_index_or threads.now.entries index d) ≤ position) }
    ensures none { IfNone result ((k : ℕ) (d : Entry) → k < length threads.now.entries
        → position < start_at (slice_index_or threads.now.entries k d)) }
{
    match threads_upto(threads, u128::from(position)) {
        0 => None,
        upto => Some(upto - 1),
    }
}

/// The sums of the counts, each of which stays at the end of a `u64`.
fn plus(a: Counts, b: Counts) -> Counts
    ensures notify { result.notify ≡ min (a.notify + b.notify) largest_count }
    ensures highlight { result.highlight ≡ min (a.highlight + b.highlight) largest_count }
{
    Counts {
        notify: a.notify.saturating_add(b.notify),
        highlight: a.highlight.saturating_add(b.highlight),
    }
}
