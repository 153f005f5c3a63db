//! The words of the command line, in each spelling.

use super::fixtures::words;
use crate::command_line::Subcommand::{Check, Run};
use crate::command_line::{Subcommand, read_words};
use std::alloc::Global;
use std::process::Abort;

/// What words say.
type Said<'a> = Option<(Subcommand, &'a str, &'a str)>;

#[test]
fn words_in_each_spelling(rt: HostRuntime) {
    for (spelling, said) in SPELLINGS {
        assert!(rt; say(&rt, rt.alloc(), spelling, said), "{spelling}");
    }
}

/// Whether the words say this.
fn say(rt: &impl Abort, alloc: Global, spelling: &str, said: Said<'_>) -> bool {
    let words = words(rt, alloc, spelling);
    match (read_words(&words), said) {
        (Some(read), Some((subcommand, server, journal))) => {
            read.subcommand == subcommand && read.server == server && read.journal == journal
        }
        (None, None) => true,
        _ => false,
    }
}

/// Words of the command line, with a blank between each two, and what they say.
#[rattlefmt::skip]
static SPELLINGS: [(&str, Said<'static>); 52] = [
    ("run --server example.org --journal a", Some((Run, "example.org", "a"))),
    ("run --journal a --server example.org", Some((Run, "example.org", "a"))),
    ("run --server=example.org --journal a", Some((Run, "example.org", "a"))),
    ("run --server example.org --journal=a", Some((Run, "example.org", "a"))),
    ("run --journal=a --server=example.org", Some((Run, "example.org", "a"))),
    ("run --server example.org --journal a --", Some((Run, "example.org", "a"))),
    ("run --journal=a --server=example.org --", Some((Run, "example.org", "a"))),
    ("check --server example.org --journal a", Some((Check, "example.org", "a"))),
    ("check --journal=a --server=example.org --", Some((Check, "example.org", "a"))),
    ("run --server [::1]:8448 --journal a", Some((Run, "[::1]:8448", "a"))),
    ("run --server=MATRIX-2.Example --journal /a/b.c", Some((Run, "MATRIX-2.Example", "/a/b.c"))),
    ("run --server run --journal check", Some((Run, "run", "check"))),
    ("run --server a --journal b=c", Some((Run, "a", "b=c"))),
    ("run --server a --journal==", Some((Run, "a", "="))),
    ("run --server a --journal ./-x", Some((Run, "a", "./-x"))),
    // No subcommand, or another.
    ("", None),
    ("run", None),
    ("check", None),
    ("--", None),
    ("Run --server a --journal b", None),
    ("load --server a --journal b", None),
    ("--server a --journal b run", None),
    ("run run --server a --journal b", None),
    ("run check --server a --journal b", None),
    // An option that is missing, empty or misspelled.
    ("run --", None),
    ("run --server a", None),
    ("run --journal b", None),
    ("run --server a --journal", None),
    ("run --journal b --server", None),
    ("run --server a --journal ", None),
    ("run --server a --journal=", None),
    ("run --server  --journal b", None),
    ("run --server= --journal b", None),
    ("run --server a --journal -", None),
    ("run --server a --journal -b", None),
    ("run --server a --journal=-b", None),
    ("run --server a --journal --", None),
    ("run --server -a --journal b", None),
    ("run --server=-a --journal b", None),
    ("run --server --journal b", None),
    ("run --server a_b --journal b", None),
    ("run --server=a=b --journal b", None),
    ("run --Server a --journal b", None),
    ("run --serv a --journal b", None),
    ("run -server a --journal b", None),
    ("run --server a --journal b --relay", None),
    // Twice, or with more words.
    ("run --server a --server a", None),
    ("run --server a --server a --journal b", None),
    ("run --server a --journal b --journal b", None),
    ("run --server a --journal b c", None),
    ("run --server a -- --journal b", None),
    ("run --server a --journal b -- --", None),
];

#[test]
fn a_name_has_at_most_200_bytes(rt: HostRuntime) {
    for (length, taken) in [(200, true), (201, false)] {
        assert!(rt; takes_name_of(&rt, rt.alloc(), length) == taken, "{length}");
    }
}

fn takes_name_of(rt: &impl Abort, alloc: Global, length: usize) -> bool {
    let spelling = format!(in alloc; "check --journal b --server={:a>length$}", "").expect(
        rt,
        "a spelling",
    );
    !say(rt, alloc, spelling.as_str(), None)
}
