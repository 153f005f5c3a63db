ghost use Rattle.std.specs.Prelude.{◌≡◌, ◌+◌, ◌<◌, ◌≤◌, ◌^◌, ◌&&◌, nat_le, count_by};
ghost use Rattle.mx_rows.specs.Rows.{counts_in, upto};

use mx_rows::{Counts, Row};

/// The counts of no rows.
pub const NONE: Counts = Counts {
    notify: 0,
    highlight: 0,
};

/// The sums of the counts.
pub fn plus(a: Counts, b: Counts) -> Counts
    requires notify { a.notify + b.notify < 2 ^ 64 }
    requires highlight { a.highlight + b.highlight < 2 ^ 64 }
    ensures notify { result.notify ≡ a.notify + b.notify }
    ensures highlight { result.highlight ≡ a.highlight + b.highlight }
{
    Counts {
        notify: a.notify + b.notify,
        highlight: a.highlight + b.highlight,
    }
}

/// What is left of counts without others.
pub fn minus(all: Counts, some: Counts) -> Counts
    requires notify { some.notify ≤ all.notify }
    requires highlight { some.highlight ≤ all.highlight }
    ensures notify { result.notify + some.notify ≡ all.notify }
    ensures highlight { result.highlight + some.highlight ≡ all.highlight }
{
    Counts {
        notify: all.notify - some.notify,
        highlight: all.highlight - some.highlight,
    }
}

/// How many rows there are, and how many of them are highlighted.
pub fn counts_of(rows: &[Row]) -> Counts
    ensures { result ≡ counts_in rows.now }
{
    Counts {
        notify: rows.len() as u64,
        highlight: rows.iter().filter(|row| row.highlight).count() as u64,
    }
}

/// The counts of the rows at or below the position.
pub fn counts_upto(rows: &[Row], position: u64) -> Counts
    ensures { result ≡ counts_in (upto position rows.now) }
{
    Counts {
        notify: rows_upto(rows, position) as u64,
        highlight: highlights_upto(rows, position) as u64,
    }
}

/// How many rows are at or below the position.
pub fn rows_upto(rows: &[Row], position: u64) -> usize
    ensures { result ≡ count_by (λ row. nat_le row.position position) rows.now }
{
    rows.iter().filter(|row| row.position <= position).count()
}

fn highlights_upto(rows: &[Row], position: u64) -> usize
    ensures { result ≡ count_by (λ row. nat_le row.position position && row.highlight) rows.now }
{
    rows.iter()
        .filter(|row| row.position <= position && row.highlight)
        .count()
}
