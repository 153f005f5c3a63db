ghost use Rattle.std.specs.Prelude.{◌≡◌, ◌+◌, ◌-◌, ◌<◌, true, length, map, IfOk, slice_index_or};
ghost use Rattle.mx_rows.specs.declared.row.Row.{Row};
ghost use Rattle.mx_rows.specs.Rows.{is_rising};
ghost use Rattle.mx_blocks.specs.Differences.{differences, IsPacked, positions, total};

use crate::difference::push_difference;
use mx_json::OutOfMemory;
use mx_rows::Row;
use std::alloc::Global;

/// The differences between the positions of neighbours, as bytes.
pub fn packed_differences(alloc: Global, rows: &[Row]) -> Result<Vec<u8>, OutOfMemory>
    requires some { 0 < length rows.now }
    requires rising { is_rising rows.now ≡ true }
    ensures packed { IfOk result (λ bytes. IsPacked bytes.items) }
    ensures reads { IfOk result (λ bytes. (d : Row)
        → positions (slice_index_or rows.now 0 d).position (differences bytes.items)
        ≡ map (λ row. row.position) rows.now) }
    ensures last { IfOk result (λ bytes. (d : Row)
        → (slice_index_or rows.now 0 d).position + total (differences bytes.items)
        ≡ (slice_index_or rows.now (length rows.now - 1) d).position) }
{
    let mut packed = Vec::new(alloc);
    for i in 1..rows.len() {
        push_difference(&mut packed, rows[i].position - rows[i - 1].position)?;
    }
    Ok(packed)
}
