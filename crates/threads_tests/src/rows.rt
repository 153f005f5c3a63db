//! Rows of three threads, and what cuts leave of them and drop.
ghost use Rattle.std.specs.Prelude.{◌≡◌};

use crate::fixtures::{name, thread};
use mx_rows::{Counts, PlainRows, Row, Rows, ThreadKey};
use std::alloc::Global;
use std::process::Abort;

/// The rows of a thread, in a list of their own.
fn rows_of(rt: &impl Abort, alloc: Global, rows: &PlainRows, thread: &ThreadKey) -> Vec<Row>
    ensures { result.items ≡ ⟦<PlainRows as Rows>⟧.list rows.now thread.now }
{
    let mut out = Vec::new(alloc);
    rows.rows_into(thread, &mut out).expect(rt, "memory");
    out
}

/// Makes capacity for a row, and appends it.
fn push(rt: &impl Abort, alloc: Global, rows: &mut PlainRows, thread: &ThreadKey, row: Row) {
    rows.reserve(alloc, thread).expect(rt, "memory");
    if rows_of(rt, alloc, rows, thread)
        .iter()
        .all(|before| before.position < row.position)
    {
        rows.push(thread, row.position, row.highlight);
    } else {
        rt.panic("a row below another");
    }
}

/// Rows at the positions 3, 4, 5, 7 and 9, of which the last is highlighted.
fn three_threads(rt: &impl Abort, alloc: Global) -> PlainRows {
    let mut rows = PlainRows::empty(alloc).expect(rt, "memory");
    for (named, position, highlight) in [
        ("main", 3, false),
        ("$a", 4, false),
        ("$b", 5, false),
        ("$a", 7, false),
        ("main", 9, true),
    ] {
        push(
            rt,
            alloc,
            &mut rows,
            &thread(rt, alloc, named),
            Row {
                position,
                highlight,
            },
        );
    }
    rows
}

/// A thread's name and its positions, each with `!` where it is highlighted.
fn written(rt: &impl Abort, alloc: Global, named: &str, rows: &[Row]) -> String {
    let mut text = String::from_str(alloc, named).expect(rt, "memory");
    for row in rows {
        let mark = if row.highlight { "!" } else { "" };
        write!(text, " {}{mark}", row.position).expect(rt, "memory");
    }
    text
}

/// The thread at this place and its rows, and nothing where there is none.
fn told(rt: &impl Abort, alloc: Global, rows: &PlainRows, k: usize) -> String {
    match rows.thread_at(k) {
        Some(thread) => written(rt, alloc, name(thread), &rows_of(rt, alloc, rows, thread)),
        None => String::new(alloc),
    }
}

/// Cuts the thread of this name, or every thread.
fn cut(rt: &impl Abort, alloc: Global, rows: &mut PlainRows, named: &str, position: u64) -> Counts {
    if named == "all" {
        return rows.cut_all(position);
    }
    rows.cut(&thread(rt, alloc, named), position)
}

#[test]
fn a_cut_drops_the_rows_at_or_below_its_position(rt: HostRuntime) {
    for (named, position, dropped, wanted) in CUTS {
        let mut rows = three_threads(&rt, rt.alloc());
        let (notify, highlight) = dropped;
        assert_eq!(rt;
            cut(&rt, rt.alloc(), &mut rows, named, position),
            Counts { notify, highlight },
            "at {named} {position}"
        );
        for (k, wanted) in wanted.iter().enumerate() {
            assert_eq!(rt;
                told(&rt, rt.alloc(), &rows, k).as_str(),
                *wanted,
                "at {named} {position}"
            );
        }
    }
}

#[rattlefmt::skip]
static CUTS: [(&str, u64, (u64, u64), [&str; 4]); 11] = [
    // Below, at, between and above the rows of a thread.
    ("main", 2, (0, 0), ["main 3 9!", "$a 4 7", "$b 5", ""]),
    ("main", 3, (1, 0), ["$a 4 7", "$b 5", "main 9!", ""]),
    ("main", 6, (1, 0), ["$a 4 7", "$b 5", "main 9!", ""]),
    ("main", 9, (2, 1), ["$a 4 7", "$b 5", "", ""]),
    ("main", 20, (2, 1), ["$a 4 7", "$b 5", "", ""]),
    // Another thread, and one without rows.
    ("$a", 4, (1, 0), ["main 3 9!", "$b 5", "$a 7", ""]),
    ("$c", 20, (0, 0), ["main 3 9!", "$a 4 7", "$b 5", ""]),
    // Every thread.
    ("all", 2, (0, 0), ["main 3 9!", "$a 4 7", "$b 5", ""]),
    ("all", 4, (2, 0), ["$b 5", "$a 7", "main 9!", ""]),
    ("all", 5, (3, 0), ["$a 7", "main 9!", "", ""]),
    ("all", 9, (5, 1), ["", "", "", ""]),
];

#[test]
fn plain_rows_count_as_packed(rt: HostRuntime) {
    let mut rows = three_threads(&rt, rt.alloc());
    let main = ThreadKey::Main;
    let sizes = rows.sizes(&main);
    let counts = rows.counts(&main);
    assert_eq!(rt;
        (
            counts.notify,
            counts.highlight,
            sizes.hot,
            sizes.packed,
            rows.ripe().is_some()
        ),
        (2, 1, 0, 2, false)
    );
    assert_eq!(rt; rows.rotate(rt.alloc(), &main, 20), Ok(0));
}
