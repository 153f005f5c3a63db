//! Rows of one thread, packed, and what cuts leave of them.
ghost use Rattle.std.specs.Prelude.{◌≡◌};

use mx_blocks::{Block, Blocks};
use mx_rows::{Row, Rows, ThreadKey};
use std::alloc::Global;
use std::process::Abort;

/// The rows of a thread, in a list of their own.
fn rows_of(rt: &impl Abort, alloc: Global, rows: &Blocks, thread: &ThreadKey) -> Vec<Row>
    ensures { result.items ≡ ⟦<Blocks as Rows>⟧.list rows.now thread.now }
{
    let mut out = Vec::new(alloc);
    rows.rows_into(thread, &mut out).expect(rt, "memory");
    out
}

/// Makes capacity for a row, and appends it.
fn push(rt: &impl Abort, alloc: Global, rows: &mut Blocks, thread: &ThreadKey, row: Row) {
    rows.reserve(alloc, thread).expect(rt, "memory");
    if rows_of(rt, alloc, rows, thread)
        .iter()
        .all(|before| before.position < row.position)
    {
        rows.push(thread, row.position, row.highlight);
    } else {
        rt.panic("a row below another");
    }
}

/// So many rows of the main thread, the first at position `gap` and each `gap` above the one
/// before. Row k, from 0, is highlighted where k % 8 and k / 8 % 8 are equal: so byte j of a
/// block's highlights has bit j % 8 alone.
fn filled(rt: &impl Abort, alloc: Global, count: u64, gap: u64) -> Blocks {
    let mut rows = Blocks::empty(alloc).expect(rt, "memory");
    let mut position: u64 = 0;
    for k in 0..count {
        position = position.checked_add(gap).expect(rt, "a position");
        let row = Row {
            position,
            highlight: k % 8 == k / 8 % 8,
        };
        push(rt, alloc, &mut rows, &ThreadKey::Main, row);
    }
    rows
}

/// The same rows, packed as far as they go.
fn packed(rt: &impl Abort, alloc: Global, count: u64, gap: u64) -> Blocks {
    let mut rows = filled(rt, alloc, count, gap);
    for _ in 0..count / 256 {
        rotated(rt, alloc, &mut rows, u64::MAX);
    }
    rows
}

fn rotated(rt: &impl Abort, alloc: Global, rows: &mut Blocks, last: u64) -> u32 {
    rows.rotate(alloc, &ThreadKey::Main, last)
        .expect(rt, "memory")
}

fn block<'a>(rt: &impl Abort, rows: &'a Blocks, k: usize) -> &'a Block {
    rows.block_at(&ThreadKey::Main, k).expect(rt, "a block")
}

/// How many blocks the main thread has.
fn blocks_of(rows: &Blocks) -> usize {
    (0..8)
        .filter(|k| rows.block_at(&ThreadKey::Main, *k).is_some())
        .count()
}

/// How many rows of the main thread are left, how many of them are highlighted, how many blocks
/// they have, how many rows are gone from the first, and how many blocks were opened.
fn told(rows: &Blocks) -> (u64, u64, usize, u32, u64) {
    let counts = rows.counts(&ThreadKey::Main);
    let gone = match rows.block_at(&ThreadKey::Main, 0) {
        Some(block) => block.gone(),
        None => 0,
    };
    (
        counts.notify,
        counts.highlight,
        blocks_of(rows),
        gone,
        rows.opened(),
    )
}

/// The length of a block's differences, its first and last position, and the place of the first
/// byte of highlights that isn't as it should be, or 32.
fn shape(rt: &impl Abort, alloc: Global, gap: u64) -> (usize, u64, u64, usize) {
    let rows = packed(rt, alloc, 256, gap);
    let block = block(rt, &rows, 0);
    let right = block
        .highlights()
        .iter()
        .enumerate()
        .take_while(|(j, byte)| **byte == 1 << (j % 8))
        .count();
    (
        block.differences().len(),
        block.first(),
        block.last(),
        right,
    )
}

#[test]
fn differences_take_the_fewest_bytes(rt: HostRuntime) {
    for (gap, bytes) in GAPS {
        assert_eq!(rt;
            shape(&rt, rt.alloc(), gap),
            (bytes, gap, 256 * gap, 32),
            "{gap} apart"
        );
    }
}

#[rattlefmt::skip]
static GAPS: [(u64, usize); 6] = [
    // how far apart the rows are, and 255 times the bytes of one difference
    (1, 255),
    (127, 255),
    (128, 510),
    (16_383, 510),
    (16_384, 765),
    (1 << 40, 1_530),
];

/// How many rows are hot, how many packed and how many blocks there are, of so many.
fn sizes(rt: &impl Abort, alloc: Global, count: u64) -> (u64, u64, usize) {
    let rows = packed(rt, alloc, count, 1);
    let sizes = rows.sizes(&ThreadKey::Main);
    (sizes.hot, sizes.packed, blocks_of(&rows))
}

#[test]
fn blocks_have_256_rows(rt: HostRuntime) {
    for (count, hot, packed, blocks) in SIZES {
        assert_eq!(rt;
            sizes(&rt, rt.alloc(), count),
            (hot, packed, blocks),
            "{count} rows"
        );
    }
}

#[rattlefmt::skip]
static SIZES: [(u64, u64, u64, usize); 6] = [
    (255, 255, 0, 0),
    (256, 0, 256, 1),
    (257, 1, 256, 1),
    (511, 255, 256, 1),
    (512, 0, 512, 2),
    (513, 1, 512, 2),
];

/// What the second of two cuts dropped of 513 rows 1 apart, and what is left.
fn cut_twice(
    rt: &impl Abort,
    alloc: Global,
    first: u64,
    second: u64,
) -> (u64, u64, (u64, u64, usize, u32, u64)) {
    let mut rows = packed(rt, alloc, 513, 1);
    rows.cut(&ThreadKey::Main, first);
    let dropped = rows.cut(&ThreadKey::Main, second);
    (dropped.notify, dropped.highlight, told(&rows))
}

#[test]
fn a_cut_opens_a_block_where_it_lies_inside(rt: HostRuntime) {
    for (first, second, (notify, highlight), left) in CUTS {
        assert_eq!(rt;
            cut_twice(&rt, rt.alloc(), first, second),
            (notify, highlight, left),
            "at {first} and {second}"
        );
    }
}

#[rattlefmt::skip]
static CUTS: [(u64, u64, (u64, u64), (u64, u64, usize, u32, u64)); 11] = [
    // Before the first block, at its first row, inside it, and at its last row.
    (0, 0, (0, 0), (513, 65, 2, 0, 0)),
    (0, 1, (1, 1), (512, 64, 2, 1, 1)),
    (0, 100, (100, 12), (413, 53, 2, 100, 1)),
    (0, 256, (256, 32), (257, 33, 1, 0, 0)),
    // Twice: further inside, below what is gone already, and to the end.
    (100, 150, (50, 7), (363, 46, 2, 150, 2)),
    (100, 50, (0, 0), (413, 53, 2, 100, 1)),
    (100, 256, (156, 20), (257, 33, 1, 0, 1)),
    // Behind it: at the first row of the next, inside that, at its last row, and behind all.
    (0, 257, (257, 33), (256, 32, 1, 1, 1)),
    (0, 300, (300, 37), (213, 28, 1, 44, 1)),
    (0, 512, (512, 64), (1, 1, 0, 0, 0)),
    (0, 513, (513, 65), (0, 0, 0, 0, 0)),
];

/// What rotations up to two positions packed of 300 rows 1 apart.
fn rotated_twice(rt: &impl Abort, alloc: Global, first: u64, second: u64) -> (u32, u32) {
    let mut rows = filled(rt, alloc, 300, 1);
    let one = rotated(rt, alloc, &mut rows, first);
    (one, rotated(rt, alloc, &mut rows, second))
}

#[test]
fn rows_are_packed_up_to_a_position(rt: HostRuntime) {
    assert_eq!(rt; rotated_twice(&rt, rt.alloc(), 255, 256), (0, 256));
    assert_eq!(rt; rotated_twice(&rt, rt.alloc(), 300, 300), (256, 0));
}

/// The first row's position of a thread that was emptied by a cut and pushed to again, and whether
/// it is told of as the only one.
fn pushed_again(rt: &impl Abort, alloc: Global) -> (u64, bool) {
    let mut rows = packed(rt, alloc, 300, 1);
    rows.cut_all(300);
    let row = Row {
        position: 301,
        highlight: false,
    };
    push(rt, alloc, &mut rows, &ThreadKey::Main, row);
    let only = rows.thread_at(0).is_some() && rows.thread_at(1).is_none();
    (
        rows_of(rt, alloc, &rows, &ThreadKey::Main)
            .iter()
            .map(|row| row.position)
            .max()
            .unwrap_or(0),
        only,
    )
}

#[test]
fn a_thread_that_was_emptied_is_pushed_to_again(rt: HostRuntime) {
    assert_eq!(rt; pushed_again(&rt, rt.alloc()), (301, true));
}

/// Whether the thread is ripe before and after a rotation, and how many rows are each at its
/// place's position of 300.
fn unpacked(rt: &impl Abort, alloc: Global) -> (bool, bool, usize) {
    let mut rows = filled(rt, alloc, 300, 127);
    let before = rows.ripe().is_some();
    rotated(rt, alloc, &mut rows, u64::MAX);
    let right = rows_of(rt, alloc, &rows, &ThreadKey::Main)
        .iter()
        .enumerate()
        .filter(|(k, row)| row.position == (*k as u64).saturating_add(1).saturating_mul(127))
        .count();
    (before, rows.ripe().is_some(), right)
}

#[test]
fn packed_rows_are_told_as_they_came(rt: HostRuntime) {
    assert_eq!(rt; unpacked(&rt, rt.alloc()), (true, false, 300));
}
