ghost use Rattle.std.specs.Prelude.{◌≡◌, ◌+◌, ◌≤◌, true, if◌then◌else◌, ◌++◌, length, slice_get};
ghost use Rattle.std.specs.List.{flat_map};
ghost use Rattle.std.specs.Map.{keys_of};
ghost use Rattle.std.specs.Option.{option_copied};
ghost use Rattle.mx_rows.specs.declared.thread_key.ThreadKey.{ThreadKey};
ghost use Rattle.mx_blocks.specs.Block.{packed_rows};
ghost use Rattle.mx_blocks.specs.Entries.{are_needed, AreDistinct, InOrder, rows_in};
ghost use Rattle.mx_blocks.specs.EntriesLaws.{AreDistinct-prop};
ghost use Rattle.mx_rows.specs.Rows.{above, are_in_order, counts_in, saturated, upto, with_rows};
ghost use Rattle.mx_rows.specs.Threads.{same_thread};
ghost use Rattle.mx_blocks.specs.Kept.{are_alive};

use crate::adding::{keep_reserved, push_at, reserve_at};
use crate::block::Block;
use crate::counting::NONE;
use crate::cutting::{cut_at, cut_every};
use crate::rotating::{ripe_thread, rotate_at};
use crate::threads::Threads;
use indexmap::IndexMap;
use mx_json::OutOfMemory;
use mx_rows::{Counts, Row, Rows, Sizes, ThreadKey};
use std::alloc::Global;

/// Rows of which those that are long unread are packed: for each thread blocks of 256 rows, and
/// then hot rows.
///
/// A thread is found by its key in one look-up, and the threads are kept in the order of their
/// first rows. So `push` is one look-up, whatever the number of threads, `counts` reads sums that
/// are kept, and `thread_at` reads one place. A `cut` lets the blocks go that end at or below its
/// position, opens the next one where that begins there, walks over the hot rows, and then moves
/// the thread past those that now start before it, or shifts those after it where nothing is left
/// of it. A `cut_all` does so for each thread that starts at or below its position, from the last
/// of them on, so that threads that all go cost no shift. A thread without rows and without
/// capacity isn't kept.
#[derive(Drop)]
pub struct Blocks {
    threads: Threads,
    opened: u64,
    ghost once: { AreDistinct threads.entries } by { AreDistinct-prop threads.entries },
    ghost needed: { are_needed threads.entries ≡ true },
    ghost order: { InOrder threads.entries },
    ghost with_rows_in_order: { are_in_order (rows_in threads.entries)
        (with_rows (rows_in threads.entries) (keys_of threads.entries)) ≡ true },
}

impl Blocks {
    ghost use Rattle.mx_blocks.specs.Lists.{blocks_of, hot_of, list_of, opened_in};

    /// How many blocks were opened: those whose differences a cut walked over. It stands still at
    /// the end of a `u64`.
    pub fn opened(&self) -> u64
        ensures { result ≡ opened_in self.now }
    {
        self.opened
    }

    /// The `k`-th block of a thread, counted from 0, in rising order of positions; `None` exactly
    /// past the last. Each has rows left, and these and then the hot rows are those of the thread.
    pub fn block_at(&self, thread: &ThreadKey, k: usize) -> Option<&Block>
        ensures block { option_copied result ≡ slice_get (blocks_of self.now thread.now) k }
        ensures alive { are_alive (blocks_of self.now thread.now) ≡ true }
        ensures rows { list_of self.now thread.now
            ≡ packed_rows (blocks_of self.now thread.now) ++ hot_of self.now thread.now }
    {
        match self.threads.get(thread) {
            Some(kept) => kept.blocks.get(k),
            None => None,
        }
    }
}

impl Rows for Blocks {
    ghost use Rattle.mx_blocks.specs.Lists.{has_capacity_of, hot_of, list_of, opened_in};
    ghost use Rattle.mx_blocks.specs.Lists.{threads_of};
    ghost use Rattle.mx_blocks.specs.EntriesLaws.{hot_last-rows_in, is_rising-rows_in};
    ghost use Rattle.mx_blocks.specs.EntriesLaws.{kept-entries};

    ghost list = { list_of };

    ghost hot = { hot_of };

    ghost has_capacity = { has_capacity_of };

    ghost threads = { threads_of };

    fn empty(alloc: Global) -> Result<Blocks, OutOfMemory> {
        Ok(Blocks {
            threads: IndexMap::new(alloc),
            opened: 0,
        })
    }

    fn reserve(&mut self, alloc: Global, thread: &ThreadKey) -> Result<(), OutOfMemory> {
        match self.threads.get_index_of(thread) {
            Some(index) => reserve_at(&mut self.threads, index),
            None => keep_reserved(&mut self.threads, alloc, thread),
        }
    }

    fn push(&mut self, thread: &ThreadKey, position: u64, highlight: bool) {
        match self.threads.get_index_of(thread) {
            Some(index) => push_at(
                &mut self.threads,
                index,
                Row {
                    position,
                    highlight,
                },
            ),
            None => unreachable!(),
        }
    }

    fn cut(&mut self, thread: &ThreadKey, position: u64) -> Counts
        ensures lists { (t : ThreadKey) → list_of self.new t
            ≡ (if same_thread thread.now t
            then above position (list_of self.old t) else list_of self.old t) }
        ensures dropped { result ≡ counts_in (upto position (list_of self.old thread.now)) }
        ensures cool { (t : ThreadKey) → length (hot_of self.new t) ≤ length (hot_of self.old t) }
        ensures capacity { (t : ThreadKey)
            → has_capacity_of self.new t ≡ has_capacity_of self.old t }
        ensures opened { opened_in self.new ≤ opened_in self.old + 1 }
    {
        match self.threads.get_index_of(thread) {
            Some(index) => cut_at(&mut self.threads, index, position, &mut self.opened),
            None => NONE,
        }
    }

    fn cut_all(&mut self, position: u64) -> Counts
        ensures lists { (t : ThreadKey) → list_of self.new t ≡ above position (list_of self.old t) }
        ensures dropped { result ≡ saturated (counts_in (upto position
            (flat_map (list_of self.old) (threads_of self.old)))) }
        ensures cool { (t : ThreadKey) → length (hot_of self.new t) ≤ length (hot_of self.old t) }
        ensures capacity { (t : ThreadKey)
            → has_capacity_of self.new t ≡ has_capacity_of self.old t }
        ensures opened { opened_in self.new ≤ opened_in self.old
            + length (with_rows (list_of self.old) (threads_of self.old)) }
    {
        cut_every(&mut self.threads, position, &mut self.opened)
    }

    fn counts(&self, thread: &ThreadKey) -> Counts {
        match self.threads.get(thread) {
            Some(kept) => kept.sums,
            None => NONE,
        }
    }

    fn thread_at(&self, k: usize) -> Option<&ThreadKey> {
        match self.threads.get_index(k) {
            Some((thread, kept)) => if kept.has_rows() { Some(thread) } else { None },
            None => None,
        }
    }

    fn rows_into(&self, thread: &ThreadKey, out: &mut Vec<Row>) -> Result<(), OutOfMemory> {
        match self.threads.get(thread) {
            Some(kept) => kept.rows_into(out),
            None => Ok(()),
        }
    }

    fn sizes(&self, thread: &ThreadKey) -> Sizes {
        match self.threads.get(thread) {
            Some(kept) => kept.sizes(),
            None => Sizes { hot: 0, packed: 0 },
        }
    }

    fn ripe(&self) -> Option<&ThreadKey> {
        ripe_thread(&self.threads)
    }

    fn rotate(&mut self, alloc: Global, thread: &ThreadKey, last: u64) -> Result<u32, OutOfMemory> {
        match self.threads.get_index_of(thread) {
            Some(index) => rotate_at(&mut self.threads, alloc, index, last),
            None => Ok(0),
        }
    }

    ghost kept = { λ rows t. kept-entries rows.threads.entries t rows.needed };

    ghost once = { λ rows. rows.once };

    ghost in_order = { λ rows. rows.with_rows_in_order };

    ghost rising = { λ rows t. is_rising-rows_in rows.threads.entries t };

    ghost hot_last = { λ rows t. hot_last-rows_in rows.threads.entries t };
}
