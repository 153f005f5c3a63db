ghost use Rattle.std.specs.Prelude.{◌≡◌, ◌+◌, ◌≤◌, true, List, ◌++◌, length, IfOk, OnOk, OnErr};
ghost use Rattle.mx_rows.specs.declared.row.Row.{Row};
ghost use Rattle.mx_rows.specs.Rows.{above, counts_in, is_rising, start_of, upto};
ghost use Rattle.mx_blocks.specs.Block.{block_rows, Kept};
ghost use Rattle.mx_blocks.specs.Differences.{differences, IsPacked, total};

use crate::counting::{counts_of, minus};
use crate::marks::{Marks, count_marked, highlights_of};
use crate::packing::packed_differences;
use crate::unpacking::unpack;
use crate::walk::walk;
use mx_json::OutOfMemory;
use mx_rows::{Counts, Row};
use std::alloc::Global;
use std::marker::Model;

/// How many rows a block is made of.
pub const BLOCK_ROWS: usize = 256;

/// 256 packed rows, of which some at the front may be gone.
#[derive(Drop)]
pub struct Block {
    first: u64,
    packed: Vec<u8>,
    highlights: Marks,
    gone: u32,
    sums: Counts,
    // the position of the first row that is left, and 2^64 where none is
    start: u128,
    // the position of the last row
    last: u64,
}

impl Model for Block {
    ghost use Rattle.mx_blocks.specs.Block.{Kept};

    ghost Value = { Kept };

    ghost use Rattle.mx_blocks.specs.Inside.{IsBlock, kept_of};

    ghost view = { kept_of };

    ghost invariant = { IsBlock };
}

impl Block {
    /// Packs 256 rows.
    ///
    /// # Errors
    ///
    /// `OutOfMemory` where the allocator has none.
    pub fn pack(alloc: Global, rows: &[Row]) -> Result<Block, OutOfMemory>
        requires count { length rows.now ≡ 256 }
        requires rising { is_rising rows.now ≡ true }
        ensures rows { IfOk result (λ block. block_rows block ≡ rows.now) }
        ensures whole { IfOk result (λ block. block.gone ≡ 0) }
    {
        let last = position_of(&rows[BLOCK_ROWS - 1]);
        let packed = packed_differences(alloc, rows)?;
        Ok(Block {
            first: rows[0].position,
            packed,
            highlights: highlights_of(rows),
            gone: 0,
            sums: counts_of(rows),
            start: u128::from(rows[0].position),
            last,
        })
    }

    /// The position of the first of the 256 rows.
    pub fn first(&self) -> u64
        ensures { result ≡ self.now.first }
    {
        self.first
    }

    /// The 255 differences between the positions of neighbours. A difference is written in groups
    /// of seven bits, the lowest group first, one group a byte, in the fewest bytes; each byte of a
    /// difference but its last has its top bit set.
    pub fn differences(&self) -> &[u8]
        ensures bytes { result.now ≡ self.now.packed }
        ensures whole { IsPacked result.now }
        ensures count { length (differences result.now) ≡ 255 }
    {
        &self.packed
    }

    /// The highlights of the 256 rows: that of row j, from 0, is bit j % 8 of byte j / 8.
    pub fn highlights(&self) -> &[u8]
        ensures bytes { result.now ≡ self.now.highlights }
        ensures count { length result.now ≡ 32 }
    {
        &self.highlights
    }

    /// How many rows are cut off the front.
    pub fn gone(&self) -> u32
        ensures count { result ≡ self.now.gone }
        ensures within { result ≤ 256 }
    {
        self.gone
    }

    /// How many rows are left, and how many of them are highlighted.
    pub fn sums(&self) -> Counts
        ensures kept { result ≡ self.now.sums }
        ensures rows { result ≡ counts_in (block_rows self.now) }
    {
        self.sums
    }

    /// The position of the first row that is left, and 2^64 where none is.
    pub fn start(&self) -> u128
        ensures { result ≡ start_of (block_rows self.now) }
    {
        self.start
    }

    /// The position of the last of the 256 rows.
    pub fn last(&self) -> u64
        ensures { result ≡ self.now.first + total (differences self.now.packed) }
    {
        self.last
    }

    /// Appends the rows that are left to `out`, which still begins with what it had after an error.
    ///
    /// # Errors
    ///
    /// `OutOfMemory` where the allocator has none.
    pub fn rows_into(&self, out: &mut Vec<Row>) -> Result<(), OutOfMemory>
        ensures ok { OnOk result (out.new.items ≡ out.old.items ++ block_rows self.now) }
        ensures err { OnErr result ((rows : List Row) × (out.new.items ≡ out.old.items ++ rows)) }
    {
        unpack(
            self.first,
            &self.packed,
            &self.highlights,
            self.gone as usize,
            out,
        )
    }

    /// Drops the rows at or below the position, and answers what it dropped.
    pub fn cut(&mut self, position: u64) -> Counts
        ensures rows { block_rows self.new ≡ above position (block_rows self.old) }
        ensures dropped { result ≡ counts_in (upto position (block_rows self.old)) }
        ensures first { self.new.first ≡ self.old.first }
        ensures packed { self.new.packed ≡ self.old.packed }
        ensures highlights { self.new.highlights ≡ self.old.highlights }
    {
        let stop = walk(self.first, &self.packed, position);
        let gone = self.gone as usize;
        if stop.passed <= gone {
            return Counts {
                notify: 0,
                highlight: 0,
            };
        }
        let dropped = Counts {
            notify: (stop.passed - gone) as u64,
            highlight: count_marked(&self.highlights, gone, stop.passed),
        };
        self.gone = stop.passed as u32;
        self.sums = minus(self.sums, dropped);
        self.start = stop.next;
        dropped
    }
}

fn position_of(row: &Row) -> u64
    ensures { result ≡ row.now.position }
{
    row.position
}
