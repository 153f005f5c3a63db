//! Late receipts that `bench/` measures. A line of the input is how many rows one thread gets, how
//! far apart they are, and the position at which they are cut afterwards; what is printed is how
//! many bytes the first block's differences have, and how many rows are left.
#![tactic(auto)]

ghost use Rattle.std.specs.Prelude.{◌≡◌, ◌<◌, ◌≤◌, [], All, OnOk};
ghost use Rattle.mx_rows.specs.declared.thread_key.ThreadKey.TheVariants.{Main};
ghost use Rattle.mx_blocks.specs.Lists.{list_of};

use anyhow::{Context, Result};
use mx_blocks::Blocks;
use mx_json::OutOfMemory;
use mx_rows::{Rows, ThreadKey};
use std::alloc::Global;

fn main(rt: HostRuntime) -> Result<()> {
    for line in rt.lines(rt.alloc()) {
        let line = line?;
        let mut words = line.as_str().split_whitespace();
        let count = number(words.next())?;
        let gap = number(words.next())?;
        let at = number(words.next())?;
        let mut rows = Blocks::empty(rt.alloc())?;
        fill(rt.alloc(), &mut rows, count, gap)?;
        let bytes = match rows.block_at(&ThreadKey::Main, 0) {
            Some(block) => block.differences().len(),
            None => 0,
        };
        rows.cut(&ThreadKey::Main, at);
        println!(rt; "{bytes} {}", rows.counts(&ThreadKey::Main).notify)?;
    }
    Ok(())
}

fn number(word: Option<&str>) -> Result<u64> {
    Ok(
        word.context("a number")?
            .parse::<u64>()
            .context("a number")?,
    )
}

/// Appends so many rows, each this far above the one before, and packs them as soon as 256 are hot.
fn fill(alloc: Global, rows: &mut Blocks, count: u64, gap: u64) -> Result<(), OutOfMemory>
    requires { list_of rows.old Main ≡ [] }
{
    let mut last: u64 = 0;
    for _row in 0..count {
        let next = last.saturating_add(gap);
        if next <= last {
            return Ok(());
        }
        append(alloc, rows, last, next)?;
        last = next;
    }
    Ok(())
}

/// Appends a row at `next`, and packs rows where 256 are hot.
fn append(alloc: Global, rows: &mut Blocks, last: u64, next: u64) -> Result<(), OutOfMemory>
    requires upto { All (λ row. row.position ≤ last) (list_of rows.old Main) }
    requires above { last < next }
    ensures { OnOk result (All (λ row. row.position ≤ next) (list_of rows.new Main)) }
{
    rows.reserve(alloc, &ThreadKey::Main)?;
    rows.push(&ThreadKey::Main, next, next % 8 == 0);
    if rows.ripe().is_some() {
        rows.rotate(alloc, &ThreadKey::Main, next)?;
    }
    Ok(())
}
