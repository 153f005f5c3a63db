ghost use Rattle.std.specs.Prelude.{◌≡◌, ◌<◌, ◌&&◌, ◌||◌, not, nat_lt, nat_le, count_by, find};
ghost use Rattle.std.specs.Prelude.{true, false, [], ◌∷◌, ◌++◌, is_ok, All, IfOk, vec_len};
ghost use Rattle.std.specs.Prelude.{vec_capacity};
ghost use Rattle.std.specs.Option.{option_copied};
ghost use Rattle.mx_rows.specs.Rows.{above, are_in_range, counts_in, has_rows, is_rising, start_of};
ghost use Rattle.mx_rows.specs.Rows.{upto};

use crate::counts::Counts;
use crate::row::Row;
use mx_json::OutOfMemory;
use std::alloc::Global;

/// The rows of one thread in a list, and whether capacity for one more is reserved.
#[derive(Drop)]
pub struct ThreadRows {
    pub rows: Vec<Row>,
    pub reserved: bool,
    ghost rising: { is_rising rows.items ≡ true },
    ghost in_range: { are_in_range rows.items ≡ true },
    ghost capacity: { reserved ≡ true → vec_len rows < vec_capacity rows },
}

impl ThreadRows {
    /// No rows, with capacity for one.
    pub fn reserved(alloc: Global) -> Result<ThreadRows, OutOfMemory>
        ensures rows { IfOk result (λ thread. thread.rows.items ≡ []) }
        ensures capacity { IfOk result (λ thread. thread.reserved ≡ true) }
    {
        Ok(ThreadRows {
            rows: Vec::with_capacity(alloc, 1)?,
            reserved: true,
        })
    }

    /// Makes capacity for one row.
    pub fn reserve(&mut self) -> Result<(), OutOfMemory>
        ensures rows { self.new.rows.items ≡ self.old.rows.items }
        ensures capacity { self.new.reserved ≡ (self.old.reserved || is_ok result) }
    {
        self.rows.reserve(1)?;
        self.reserved = true;
        Ok(())
    }

    /// Appends a row, and uses the capacity up.
    pub fn push(&mut self, row: Row)
        requires capacity { self.old.reserved ≡ true }
        requires above { All (λ before. before.position < row.position) self.old.rows.items }
        ensures rows { self.new.rows.items ≡ self.old.rows.items ++ row ∷ [] }
        ensures capacity { self.new.reserved ≡ false }
    {
        self.rows.push_reserved(row);
        self.reserved = false;
    }

    /// Drops the rows at or below the position, and answers what it dropped.
    pub fn cut(&mut self, position: u64) -> Counts
        ensures rows { self.new.rows.items ≡ above position self.old.rows.items }
        ensures capacity { self.new.reserved ≡ self.old.reserved }
        ensures dropped { result ≡ counts_in (upto position self.old.rows.items) }
    {
        let dropped = counts_upto(&self.rows, position);
        self.rows.retain(|row| row.position > position);
        dropped
    }

    /// The position of the first row, and 2^64 where there is none.
    pub fn start(&self) -> u128
        ensures { result ≡ start_of self.now.rows.items }
    {
        first_of(&self.rows)
    }

    /// The position of the first row that a cut would leave, and 2^64 where it would leave none.
    pub fn start_above(&self, position: u64) -> u128
        ensures { result ≡ start_of (above position self.now.rows.items) }
    {
        match first_above(&self.rows, position) {
            Some(row) => u128::from(row.position),
            None => 1 << 64,
        }
    }

    /// Whether there is a row.
    pub fn has_rows(&self) -> bool
        ensures { result ≡ has_rows self.now.rows.items }
    {
        !self.rows.is_empty()
    }

    /// Whether there is neither a row nor capacity for one.
    pub fn is_spent(&self) -> bool
        ensures { result ≡ not (has_rows self.now.rows.items || self.now.reserved) }
    {
        self.rows.is_empty() && !self.reserved
    }
}

/// How many rows there are, and how many of them are highlighted.
pub fn counts_in(rows: &[Row]) -> Counts
    ensures { result ≡ counts_in rows.now }
{
    Counts {
        notify: rows.len() as u64,
        highlight: rows.iter().filter(|row| row.highlight).count() as u64,
    }
}

/// The counts of the rows at or below the position.
fn counts_upto(rows: &[Row], position: u64) -> Counts
    ensures { result ≡ counts_in (upto position rows.now) }
{
    Counts {
        notify: rows_upto(rows, position) as u64,
        highlight: highlights_upto(rows, position) as u64,
    }
}

fn rows_upto(rows: &[Row], position: u64) -> usize
    ensures { result ≡ count_by (λ row. nat_le row.position position) rows.now }
{
    rows.iter().filter(|row| row.position <= position).count()
}

fn highlights_upto(rows: &[Row], position: u64) -> usize
    ensures { result ≡ count_by (λ row. nat_le row.position position && row.highlight) rows.now }
{
    rows.iter()
        .filter(|row| row.position <= position && row.highlight)
        .count()
}

/// The first row above the position.
fn first_above(rows: &[Row], position: u64) -> Option<&Row>
    ensures { option_copied result ≡ find (λ row. nat_lt position row.position) rows.now }
{
    rows.iter().find(|row| row.position > position)
}

fn first_of(rows: &[Row]) -> u128
    ensures { result ≡ start_of rows.now }
{
    match rows.first() {
        Some(row) => u128::from(row.position),
        None => 1 << 64,
    }
}
