ghost use Rattle.std.specs.Prelude.{◌≡◌, ◌+◌, ◌-◌, ◌<◌, ◌≤◌, ◌^◌, not, nat_le, ◌||◌, true, false};
ghost use Rattle.std.specs.Prelude.{if◌then◌else◌, [], ◌∷◌, ◌++◌, is_ok, List, All, IfOk, OnOk};
ghost use Rattle.std.specs.Prelude.{OnErr, length, drop, take, vec_len, vec_capacity};
ghost use Rattle.std.specs.Result.{result_unwrap_or};
ghost use Rattle.mx_rows.specs.declared.row.Row.{Row};
ghost use Rattle.mx_rows.specs.Rows.{above, are_in_range, counts_in, has_rows, is_rising, start_of};
ghost use Rattle.mx_rows.specs.Rows.{upto};
ghost use Rattle.mx_blocks.specs.Kept.{are_alive, rows_of_parts};

use crate::block::{BLOCK_ROWS, Block};
use crate::block_list::cut_blocks;
use crate::counting::{NONE, counts_upto, minus, plus, rows_upto};
use mx_json::OutOfMemory;
use mx_rows::{Counts, Row, Sizes};
use std::alloc::Global;
use std::collections::VecDeque;

/// The rows of one thread: blocks, and then hot rows;
/// and whether capacity for one more is reserved.
#[derive(Drop)]
pub struct ThreadRows {
    pub blocks: VecDeque<Block>,
    pub hot: Vec<Row>,
    pub sums: Counts,
    pub reserved: bool,
    ghost rising: { is_rising (rows_of_parts blocks.items hot.items) ≡ true },
    ghost in_range: { are_in_range (rows_of_parts blocks.items hot.items) ≡ true },
    ghost alive: { are_alive blocks.items ≡ true },
    ghost counted: { sums ≡ counts_in (rows_of_parts blocks.items hot.items) },
    ghost fits: { sums.notify < 2 ^ 64 },
    ghost capacity: { reserved ≡ true → vec_len hot < vec_capacity hot },
    ghost countable: { reserved ≡ true → sums.notify + 1 < 2 ^ 64 },
}

impl ThreadRows {
    /// No rows, with capacity for one.
    pub fn reserved(alloc: Global) -> Result<ThreadRows, OutOfMemory>
        ensures rows { IfOk result
            (λ thread. rows_of_parts thread.blocks.items thread.hot.items ≡ []) }
        ensures hot { IfOk result (λ thread. thread.hot.items ≡ []) }
        ensures capacity { IfOk result (λ thread. thread.reserved ≡ true) }
    {
        Ok(ThreadRows {
            hot: Vec::with_capacity(alloc, 1)?,
            blocks: VecDeque::new(alloc),
            sums: NONE,
            reserved: true,
        })
    }

    /// Makes capacity for one row, and for its count.
    pub fn reserve(&mut self) -> Result<(), OutOfMemory>
        ensures rows { rows_of_parts self.new.blocks.items self.new.hot.items
            ≡ rows_of_parts self.old.blocks.items self.old.hot.items }
        ensures hot { self.new.hot.items ≡ self.old.hot.items }
        ensures capacity { self.new.reserved ≡ (self.old.reserved || is_ok result) }
    {
        if self.sums.notify == u64::MAX {
            return Err(OutOfMemory);
        }
        self.hot.reserve(1)?;
        self.reserved = true;
        Ok(())
    }

    /// Appends a row, and uses the capacity up.
    pub fn push(&mut self, row: Row)
        requires capacity { self.old.reserved ≡ true }
        requires above { All (λ before. before.position < row.position)
            (rows_of_parts self.old.blocks.items self.old.hot.items) }
        ensures rows { rows_of_parts self.new.blocks.items self.new.hot.items
            ≡ rows_of_parts self.old.blocks.items self.old.hot.items ++ row ∷ [] }
        ensures hot { self.new.hot.items ≡ self.old.hot.items ++ row ∷ [] }
        ensures capacity { self.new.reserved ≡ false }
    {
        let one = Counts {
            notify: 1,
            highlight: u64::from(row.highlight),
        };
        self.hot.push_reserved(row);
        self.sums = plus(self.sums, one);
        self.reserved = false;
    }

    /// Drops the rows at or below the position, and answers what it dropped.
    pub fn cut(&mut self, position: u64, opened: &mut u64) -> Counts
        ensures rows { rows_of_parts self.new.blocks.items self.new.hot.items
            ≡ above position (rows_of_parts self.old.blocks.items self.old.hot.items) }
        ensures hot { self.new.hot.items ≡ above position self.old.hot.items }
        ensures capacity { self.new.reserved ≡ self.old.reserved }
        ensures dropped { result
            ≡ counts_in (upto position (rows_of_parts self.old.blocks.items self.old.hot.items)) }
        ensures opened { opened.new ≤ opened.old + 1 }
    {
        let packed = cut_blocks(&mut self.blocks, position, opened);
        let dropped = plus(packed, counts_upto(&self.hot, position));
        self.hot.retain(|row| row.position > position);
        self.sums = minus(self.sums, dropped);
        dropped
    }

    /// Packs the first 256 hot rows where so many are at or below `last`, and answers how many it
    /// packed.
    pub fn rotate(&mut self, alloc: Global, last: u64) -> Result<u32, OutOfMemory>
        ensures rows { rows_of_parts self.new.blocks.items self.new.hot.items
            ≡ rows_of_parts self.old.blocks.items self.old.hot.items }
        ensures answer { IfOk result (λ n. n ≡ (if nat_le 256
            (length (upto last self.old.hot.items)) then 256 else 0)) }
        ensures hot { self.new.hot.items
            ≡ drop (result_unwrap_or result 0) self.old.hot.items }
        ensures capacity { self.new.reserved ≡ self.old.reserved }
    {
        if rows_upto(&self.hot, last) < BLOCK_ROWS {
            return Ok(0);
        }
        let block = Block::pack(alloc, first_rows(&self.hot))?;
        self.blocks.reserve(1)?;
        self.hot.drain(..BLOCK_ROWS);
        self.blocks.push_back_reserved(block);
        Ok(BLOCK_ROWS as u32)
    }

    /// Appends the rows to `out`, which is as it was after an error.
    pub fn rows_into(&self, out: &mut Vec<Row>) -> Result<(), OutOfMemory>
        ensures ok { OnOk result (out.new.items
            ≡ out.old.items ++ rows_of_parts self.now.blocks.items self.now.hot.items) }
        ensures err { OnErr result (out.new.items ≡ out.old.items) }
    {
        let len = out.len();
        if self.append_to(out).is_err() {
            out.truncate(len);
            return Err(OutOfMemory);
        }
        Ok(())
    }

    /// Appends the rows to `out`, which still begins with what it had after an error.
    fn append_to(&self, out: &mut Vec<Row>) -> Result<(), OutOfMemory>
        ensures ok { OnOk result (out.new.items
            ≡ out.old.items ++ rows_of_parts self.now.blocks.items self.now.hot.items) }
        ensures err { OnErr result ((rows : List Row) × (out.new.items ≡ out.old.items ++ rows)) }
    {
        for k in 0..self.blocks.len() {
            self.blocks[k].rows_into(out)?;
        }
        out.extend_from_slice(&self.hot)?;
        Ok(())
    }

    /// The position of the first row, and 2^64 where there is none.
    pub fn start(&self) -> u128
        ensures { result ≡ start_of (rows_of_parts self.now.blocks.items self.now.hot.items) }
    {
        match self.blocks.front() {
            Some(block) => block.start(),
            None => first_of(&self.hot),
        }
    }

    /// How many rows are hot, and how many packed.
    pub fn sizes(&self) -> Sizes
        ensures hot { result.hot ≡ length self.now.hot.items }
        ensures all { result.hot + result.packed
            ≡ length (rows_of_parts self.now.blocks.items self.now.hot.items) }
    {
        let hot = self.hot.len() as u64;
        Sizes {
            hot,
            packed: self.sums.notify - hot,
        }
    }

    /// Whether there is a row.
    pub fn has_rows(&self) -> bool
        ensures { result ≡ has_rows (rows_of_parts self.now.blocks.items self.now.hot.items) }
    {
        self.sums.notify > 0
    }

    /// Whether there is neither a row nor capacity for one.
    pub fn is_spent(&self) -> bool
        ensures { result ≡ not (has_rows (rows_of_parts self.now.blocks.items self.now.hot.items)
            || self.now.reserved) }
    {
        !self.has_rows() && !self.reserved
    }
}

fn first_of(rows: &[Row]) -> u128
    ensures { result ≡ start_of rows.now }
{
    match rows.first() {
        Some(row) => u128::from(row.position),
        None => 1 << 64,
    }
}

/// The first 256 rows.
fn first_rows(rows: &[Row]) -> &[Row]
    requires { 256 ≤ length rows.now }
    ensures { result.now ≡ take 256 rows.now }
{
    &rows[..BLOCK_ROWS]
}
