ghost use Rattle.std.specs.Prelude.{◌≡◌, ◌+◌, ◌<◌, ◌≤◌, ◌^◌, List, [], ◌∷◌, ◌++◌, drop, length};
ghost use Rattle.std.specs.Prelude.{OnOk, OnErr};
ghost use Rattle.mx_rows.specs.declared.row.Row.{Row};
ghost use Rattle.mx_blocks.specs.Block.{rows_from};
ghost use Rattle.mx_blocks.specs.Differences.{differences, IsPacked, positions, total};
ghost use Rattle.mx_blocks.specs.Walk.{rows_left};

use crate::difference::read_difference;
use crate::marks::{Marks, is_marked};
use mx_json::OutOfMemory;
use mx_rows::Row;

/// Appends the rows of a block that aren't gone.
pub fn unpack(
    first: u64,
    packed: &[u8],
    marks: &Marks,
    gone: usize,
    out: &mut Vec<Row>,
) -> Result<(), OutOfMemory>
    requires packed { IsPacked packed.now }
    requires small { first + total (differences packed.now) < 2 ^ 64 }
    requires few { length (differences packed.now) ≤ 255 }
    ensures ok { OnOk result (out.new.items ≡ out.old.items
        ++ rows_from marks.now gone (drop gone (positions first (differences packed.now)))) }
    ensures err { OnErr result ((rows : List Row) × (out.new.items ≡ out.old.items ++ rows)) }
{
    let mut position = first;
    let mut row = 0;
    let mut at = 0;
    while at < packed.len() {
        push_left(out, marks, gone, row, position)?;
        let (difference, behind) = read_difference(packed, at);
        position += difference;
        row += 1;
        at = behind;
    }
    push_left(out, marks, gone, row, position)?;
    Ok(())
}

/// Appends a row, unless it is gone.
fn push_left(
    out: &mut Vec<Row>,
    marks: &Marks,
    gone: usize,
    row: usize,
    position: u64,
) -> Result<(), OutOfMemory>
    requires { row < 256 }
    ensures ok { OnOk result (out.new.items
        ≡ out.old.items ++ rows_left marks.now gone row (position ∷ [])) }
    ensures err { OnErr result (out.new.items ≡ out.old.items) }
{
    if row < gone {
        return Ok(());
    }
    out.push(Row {
        position,
        highlight: is_marked(marks, row),
    })?;
    Ok(())
}
