//! Commits that `bench/` measures. The line of the input is a path, how many payloads are
//! committed to the new journal there, and how many bytes each has.
#![tactic(auto)]

mod file_disk;

use anyhow::{Context, Result, bail};
use file_disk::FileDisk;
use mx_journal::Journal;
use std::alloc::Global;
use std::fs::{File, OpenOptions};

fn main(rt: HostRuntime) -> Result<()> {
    for line in rt.lines(rt.alloc()) {
        let line = line?;
        let mut words = line.as_str().split_whitespace();
        let path = words.next().context("a path")?;
        let count = words
            .next()
            .context("a count")?
            .parse::<u32>()
            .context("a count")?;
        let bytes = words
            .next()
            .context("a size")?
            .parse::<usize>()
            .context("a size")?;
        let file = OpenOptions::new()
            .read(true)
            .write(true)
            .create_new(true)
            .open(&rt, path)?;
        let payload = vec![in rt.alloc(); b'x'; bytes]?;
        commit_all(rt.alloc(), file, count, &payload)?;
    }
    Ok(())
}

/// Commits the payload so many times to a new journal in an empty file.
fn commit_all(alloc: Global, file: File, count: u32, payload: &[u8]) -> Result<()> {
    let mut journal = match Journal::open(alloc, FileDisk::new(file)) {
        Ok(journal) => journal,
        Err(_) => bail!("no journal"),
    };
    let mut read = Vec::new(alloc);
    if payload.is_empty() || journal.next_record(&mut read)? {
        bail!("a payload of no bytes, or a file that isn't empty");
    }
    for _commit in 0..count {
        journal.stage(payload)?;
        journal.commit()?;
    }
    Ok(())
}
