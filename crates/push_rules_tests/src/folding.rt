//! Folded texts, and how their reads are counted.
use mx_json::{Folded, Meter};
use std::alloc::Global;
use std::process::Abort;

#[test]
fn folds_and_counts(rt: HostRuntime) {
    let (text, reads) = read(&rt, rt.alloc(), "Straße İ");
    assert_eq!(rt; text.as_str(), "strasse i\u{307}");
    assert_eq!(rt; reads, 11);
}

/// A copy of the folded text, read to its end and once past it, and how many reads were counted.
fn read(rt: &impl Abort, alloc: Global, text: &str) -> (String, u64) {
    let folded = copied(rt, alloc, &folded(rt, alloc, text));
    let mut meter = Meter::new();
    let mut read = String::new(alloc);
    for k in 0..folded.len() + 1 {
        if let Some(character) = folded.at(k, &mut meter) {
            read.push(character).expect(rt, "a text");
        }
    }
    (read, meter.count())
}

fn folded(rt: &impl Abort, alloc: Global, text: &str) -> Folded {
    Folded::of(alloc, text).expect(rt, "a folded text")
}

fn copied(rt: &impl Abort, alloc: Global, folded: &Folded) -> Folded {
    folded.copied(alloc).expect(rt, "a copy")
}

// It shows how many characters there are, and none of them: a character is read by `at` alone.
#[test]
fn a_folded_text_is_shown_by_its_length(rt: HostRuntime) {
    assert!(rt; is_shown_as(&rt, rt.alloc(), "Straße", "Folded { len: 7 }"));
}

fn is_shown_as(rt: &impl Abort, alloc: Global, text: &str, wanted: &str) -> bool {
    let folded = folded(rt, alloc, text);
    format!(in alloc; "{folded:?}")
        .expect(rt, "a text")
        .as_str()
        == wanted
}
