ghost use Rattle.std.specs.Prelude.{◌≡◌, ◌≢◌, ℕ, ◌-◌, ◌<◌, ◌≤◌, false, true, length, count_by};
ghost use Rattle.std.specs.Prelude.{slice_index_or};
ghost use Rattle.std.specs.List.{range_with_len};
ghost use Rattle.mx_rows.specs.declared.row.Row.{Row};
ghost use Rattle.mx_blocks.specs.Block.{mark_at};

use mx_rows::Row;

/// A bit for each of 256 rows.
pub type Marks = [u8; 32];

/// No row is marked.
fn no_marks() -> Marks
    ensures { (k : ℕ) → mark_at result k ≡ false }
{
    [0; 32]
}

/// Marks a row.
fn mark(marks: &mut Marks, row: usize)
    requires { row < 256 }
    ensures here { mark_at marks.new row ≡ true }
    ensures others { (k : ℕ) → k ≢ row → mark_at marks.new k ≡ mark_at marks.old k }
{
    marks[row / 8] |= 1 << (row % 8);
}

/// Whether a row is marked.
pub fn is_marked(marks: &Marks, row: usize) -> bool
    requires { row < 256 }
    ensures { result ≡ mark_at marks.now row }
{
    (marks[row / 8] >> (row % 8)) & 1 == 1
}

/// How many rows are marked, from one on and before another.
pub fn count_marked(marks: &Marks, from: usize, to: usize) -> u64
    requires { to ≤ 256 }
    ensures { result ≡ count_by (mark_at marks.now) (range_with_len from (to - from)) }
{
    (from..to).filter(|row| is_marked(marks, *row)).count() as u64
}

/// Marks the rows that are highlighted.
pub fn highlights_of(rows: &[Row]) -> Marks
    requires { length rows.now ≤ 256 }
    ensures { (k : ℕ) (d : Row) → k < length rows.now
        → mark_at result k ≡ (slice_index_or rows.now k d).highlight }
{
    let mut marks = no_marks();
    for (k, row) in rows.iter().enumerate() {
        if row.highlight {
            mark(&mut marks, k);
        }
    }
    marks
}
