ghost use Rattle.std.specs.Prelude.{◌≡◌, true};
ghost use Rattle.std.specs.Map.{keys_of};
ghost use Rattle.mx_rows.specs.Plain.{are_needed, AreDistinct, InOrder, rows_in};
ghost use Rattle.mx_rows.specs.PlainLaws.{AreDistinct-prop};
ghost use Rattle.mx_rows.specs.Rows.{are_in_order, with_rows};

use crate::adding::{keep_reserved, push_at, reserve_at};
use crate::counts::{Counts, Sizes};
use crate::cutting::{cut_at, cut_every};
use crate::row::Row;
use crate::rows::Rows;
use crate::thread_key::ThreadKey;
use crate::thread_rows::counts_in;
use crate::threads::{Threads, rows_of};
use indexmap::IndexMap;
use mx_json::OutOfMemory;
use std::alloc::Global;

/// Rows in one list a thread, all of which count as packed.
///
/// A thread is found by its key in one look-up, and the threads are kept in the order of their
/// first rows. So `push` is one look-up, whatever the number of threads, `counts` besides walks
/// over the thread's rows, and `thread_at` reads one place. A `cut` walks over the rows of its
/// thread, and then moves the thread past those that now start before it, or shifts those after it
/// where nothing is left of it. A `cut_all` does so for each thread that starts at or below its
/// position, from the last of them on, so that threads that all go cost no shift. A thread without
/// rows and without capacity isn't kept.
#[derive(Drop)]
pub struct PlainRows {
    threads: Threads,
    ghost once: { AreDistinct threads.entries } by { AreDistinct-prop threads.entries },
    ghost needed: { are_needed threads.entries ≡ true },
    ghost order: { InOrder threads.entries },
    ghost with_rows_in_order: { are_in_order (rows_in threads.entries)
        (with_rows (rows_in threads.entries) (keys_of threads.entries)) ≡ true },
}

impl Rows for PlainRows {
    ghost use Rattle.std.specs.Prelude.{[]};
    ghost use Rattle.std.specs.Map.{keys_of};
    ghost use Rattle.mx_rows.specs.Plain.{reserved_in, rows_in};
    ghost use Rattle.std.proofs.Common.{sym};
    ghost use Rattle.std.proofs.lemmas.List.{append-nil};
    ghost use Rattle.mx_rows.specs.PlainLaws.{is_rising-rows_in, kept-entries};

    ghost list = { λ rows. rows_in rows.threads.entries };

    ghost hot = { λ rows t. [] };

    ghost has_capacity = { λ rows. reserved_in rows.threads.entries };

    ghost threads = { λ rows. keys_of rows.threads.entries };

    fn empty(alloc: Global) -> Result<PlainRows, OutOfMemory> {
        Ok(PlainRows {
            threads: IndexMap::new(alloc),
        })
    }

    fn reserve(&mut self, alloc: Global, thread: &ThreadKey) -> Result<(), OutOfMemory> {
        match self.threads.get_index_of(thread) {
            Some(index) => reserve_at(&mut self.threads, index),
            None => keep_reserved(&mut self.threads, alloc, thread),
        }
    }

    fn push(&mut self, thread: &ThreadKey, position: u64, highlight: bool) {
        match self.threads.get_index_of(thread) {
            Some(index) => push_at(
                &mut self.threads,
                index,
                Row {
                    position,
                    highlight,
                },
            ),
            None => unreachable!(),
        }
    }

    fn cut(&mut self, thread: &ThreadKey, position: u64) -> Counts {
        match self.threads.get_index_of(thread) {
            Some(index) => cut_at(&mut self.threads, index, position),
            None => Counts {
                notify: 0,
                highlight: 0,
            },
        }
    }

    fn cut_all(&mut self, position: u64) -> Counts {
        cut_every(&mut self.threads, position)
    }

    fn counts(&self, thread: &ThreadKey) -> Counts {
        counts_in(rows_of(&self.threads, thread))
    }

    fn thread_at(&self, k: usize) -> Option<&ThreadKey> {
        match self.threads.get_index(k) {
            Some((thread, kept)) => if kept.has_rows() { Some(thread) } else { None },
            None => None,
        }
    }

    fn rows_into(&self, thread: &ThreadKey, out: &mut Vec<Row>) -> Result<(), OutOfMemory> {
        out.extend_from_slice(rows_of(&self.threads, thread))?;
        Ok(())
    }

    fn sizes(&self, thread: &ThreadKey) -> Sizes {
        Sizes {
            hot: 0,
            packed: rows_of(&self.threads, thread).len() as u64,
        }
    }

    fn ripe(&self) -> Option<&ThreadKey> {
        None
    }

    fn rotate(
        &mut self,
        _alloc: Global,
        _thread: &ThreadKey,
        _last: u64,
    ) -> Result<u32, OutOfMemory> {
        Ok(0)
    }

    ghost kept = { λ rows t. kept-entries rows.threads.entries t rows.needed };

    ghost once = { λ rows. rows.once };

    ghost in_order = { λ rows. rows.with_rows_in_order };

    ghost rising = { λ rows t. is_rising-rows_in rows.threads.entries t };

    ghost hot_last = { λ rows t. (rows_in rows.threads.entries t, sym (append-nil _)) };
}
