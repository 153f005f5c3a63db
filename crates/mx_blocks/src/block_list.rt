ghost use Rattle.std.specs.Prelude.{◌≡◌, ◌+◌, ◌<◌, ◌≤◌, ◌^◌, false, true, length, count_by};
ghost use Rattle.mx_rows.specs.Rows.{above, counts_in, is_rising, upto};
ghost use Rattle.mx_blocks.specs.Block.{block_rows, packed_rows};
ghost use Rattle.mx_blocks.specs.Kept.{are_alive, first_ends_upto};

use crate::block::Block;
use crate::counting::{NONE, plus};
use mx_rows::Counts;
use std::collections::VecDeque;

/// Drops the rows at or below the position, and answers what it dropped. Blocks that end there go
/// whole; the first of the others is opened where it begins there.
pub fn cut_blocks(blocks: &mut VecDeque<Block>, position: u64, opened: &mut u64) -> Counts
    requires rising { is_rising (packed_rows blocks.old.items) ≡ true }
    requires alive { are_alive blocks.old.items ≡ true }
    requires few { length (packed_rows blocks.old.items) < 2 ^ 64 }
    ensures rows { packed_rows blocks.new.items ≡ above position (packed_rows blocks.old.items) }
    ensures dropped { result ≡ counts_in (upto position (packed_rows blocks.old.items)) }
    ensures alive { are_alive blocks.new.items ≡ true }
    ensures opened { opened.new ≤ opened.old + 1 }
{
    let whole = drop_whole(blocks, position);
    let part = cut_first(blocks, position, opened);
    plus(whole, part)
}

/// Drops the blocks that end at or below the position.
fn drop_whole(blocks: &mut VecDeque<Block>, position: u64) -> Counts
    requires rising { is_rising (packed_rows blocks.old.items) ≡ true }
    requires alive { are_alive blocks.old.items ≡ true }
    requires few { length (packed_rows blocks.old.items) < 2 ^ 64 }
    ensures rows { above position (packed_rows blocks.new.items)
        ≡ above position (packed_rows blocks.old.items) }
    ensures notify { result.notify + length (upto position (packed_rows blocks.new.items))
        ≡ length (upto position (packed_rows blocks.old.items)) }
    ensures highlight { result.highlight
        + count_by (λ row. row.highlight) (upto position (packed_rows blocks.new.items))
        ≡ count_by (λ row. row.highlight) (upto position (packed_rows blocks.old.items)) }
    ensures rising { is_rising (packed_rows blocks.new.items) ≡ true }
    ensures alive { are_alive blocks.new.items ≡ true }
    ensures over { first_ends_upto position blocks.new.items ≡ false }
{
    let mut dropped = NONE;
    while ends_upto(blocks, position) {
        if let Some(block) = blocks.pop_front() {
            dropped = plus(dropped, block.sums());
        }
    }
    dropped
}

/// Whether the first block ends at or below the position.
fn ends_upto(blocks: &VecDeque<Block>, position: u64) -> bool
    ensures { result ≡ first_ends_upto position blocks.now.items }
{
    match blocks.front() {
        Some(block) => block.last() <= position,
        None => false,
    }
}

/// Cuts the first block, which ends above the position.
fn cut_first(blocks: &mut VecDeque<Block>, position: u64, opened: &mut u64) -> Counts
    requires rising { is_rising (packed_rows blocks.old.items) ≡ true }
    requires alive { are_alive blocks.old.items ≡ true }
    requires over { first_ends_upto position blocks.old.items ≡ false }
    ensures rows { packed_rows blocks.new.items ≡ above position (packed_rows blocks.old.items) }
    ensures dropped { result ≡ counts_in (upto position (packed_rows blocks.old.items)) }
    ensures alive { are_alive blocks.new.items ≡ true }
    ensures opened { opened.new ≤ opened.old + 1 }
{
    let Some(mut block) = blocks.pop_front() else {
        return NONE;
    };
    let dropped = cut_block(&mut block, position, opened);
    blocks.push_front_reserved(block);
    dropped
}

/// Cuts a block, which is opened only where it begins at or below the position.
fn cut_block(block: &mut Block, position: u64, opened: &mut u64) -> Counts
    requires { is_rising (block_rows block.old) ≡ true }
    ensures rows { block_rows block.new ≡ above position (block_rows block.old) }
    ensures dropped { result ≡ counts_in (upto position (block_rows block.old)) }
    ensures opened { opened.new ≤ opened.old + 1 }
{
    if u128::from(position) < block.start() {
        return NONE;
    }
    *opened = opened.saturating_add(1);
    block.cut(position)
}
