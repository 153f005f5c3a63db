ghost use Rattle.std.specs.Prelude.{◌≡◌, ◌+◌, ◌<◌, ◌≤◌, ◌^◌, take, length};
ghost use Rattle.mx_records.specs.Refusing.{most_inputs};
ghost use Rattle.mx_rows.specs.Rows.{with_rows};
ghost use Rattle.mx_rows.specs.declared.thread_key.ThreadKey.{ThreadKey};
ghost use Rattle.mx_engine.specs.Totals.{totals};

use mx_records::{Counts, MOST_INPUTS};
use mx_rows::Rows;

/// How many rows all threads have, of the first 1,000,000, and how many of these are highlighted.
/// No room of a history has more threads with rows, since each has an event of its own.
pub(crate) fn totals<R: Rows>(rows: &R) -> Counts
    requires { (t : ThreadKey) → length (R.list rows.now t) ≤ most_inputs }
    ensures { result ≡ totals (R.list rows.now)
        (take most_inputs (with_rows (R.list rows.now) (R.threads rows.now))) }
{
    let mut counts = Counts {
        notify: 0,
        highlight: 0,
    };
    for k in 0..MOST_INPUTS as usize {
        let Some(thread) = rows.thread_at(k) else {
            return counts;
        };
        counts = sum(counts, rows.counts(thread));
    }
    counts
}

// Both counts added up.
fn sum(left: Counts, right: Counts) -> Counts
    requires notify { left.notify + right.notify < 2 ^ 64 }
    requires highlight { left.highlight + right.highlight < 2 ^ 64 }
    ensures notify { result.notify ≡ left.notify + right.notify }
    ensures highlight { result.highlight ≡ left.highlight + right.highlight }
{
    Counts {
        notify: left.notify + right.notify,
        highlight: left.highlight + right.highlight,
    }
}
