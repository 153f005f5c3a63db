ghost use Rattle.std.specs.Prelude.{◌≡◌, ◌++◌, OnOk, OnErr};
ghost use Rattle.push_server.specs.JournalLines.{tally_line, fault_line};

use mx_json::OutOfMemory;
use std::alloc::Global;

/// Appends what is said of a journal that has so many entries, so many of them inputs, with its
/// line feed. After an error `out` is as before.
///
/// # Errors
///
/// `OutOfMemory` where the allocator has none.
pub fn tally_into(
    alloc: Global,
    entries: u64,
    inputs: u64,
    out: &mut Vec<u8>,
) -> Result<(), OutOfMemory>
    ensures text { OnOk result (out.new.items ≡ out.old.items ++ tally_line entries inputs) }
    ensures err { OnErr result (out.new.items ≡ out.old.items) }
{
    let line = format!(in alloc; "= {{\"entries\":{entries},\"inputs\":{inputs}}}\n")?;
    out.extend_from_slice(line.as_bytes())?;
    Ok(())
}

/// Appends what is said of a file that is no journal, whose first fault is at this offset (in bytes
/// from 0), with its line feed. After an error `out` is as before.
///
/// # Errors
///
/// `OutOfMemory` where the allocator has none.
pub fn fault_into(alloc: Global, offset: u64, out: &mut Vec<u8>) -> Result<(), OutOfMemory>
    ensures text { OnOk result (out.new.items ≡ out.old.items ++ fault_line offset) }
    ensures err { OnErr result (out.new.items ≡ out.old.items) }
{
    let line = format!(in alloc; "= {{\"error\":\"NotAJournal\",\"offset\":{offset}}}\n")?;
    out.extend_from_slice(line.as_bytes())?;
    Ok(())
}
