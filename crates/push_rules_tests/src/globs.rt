//! Globs, and names as words.
use mx_glob::{Glob, GlobError, Scratch, name_of_text, word_literal};
use mx_json::{Folded, Meter};
use mx_vectors::{GLOB_CASES, GlobCase, Text};
use std::alloc::Global;
use std::process::Abort;

#[test]
fn globs_answer_the_table(rt: HostRuntime) {
    for case in &GLOB_CASES {
        let wanted = case.answers.map(|answers| (answers.whole, answers.word));
        assert_eq!(rt; answers(&rt, rt.alloc(), case), wanted, "{}", case.name);
    }
}

/// What a copy of the case's glob answers for its value, whole and as a word; none where the pattern
/// is too long.
fn answers(rt: &impl Abort, alloc: Global, case: &GlobCase) -> Option<(bool, bool)> {
    let value = folded(rt, alloc, written(rt, alloc, &case.value).as_str());
    match Glob::read(alloc, written(rt, alloc, &case.pattern).as_str()) {
        Ok(glob) => Some(matches(rt, alloc, &copy(rt, alloc, &glob), &value)),
        Err(GlobError::PatternTooLong) => None,
        Err(GlobError::OutOfMemory) => rt.panic("no memory"),
    }
}

fn written(rt: &impl Abort, alloc: Global, text: &Text) -> String {
    text.write(alloc).expect(rt, "a text")
}

fn folded(rt: &impl Abort, alloc: Global, text: &str) -> Folded {
    Folded::of(alloc, text).expect(rt, "a folded text")
}

fn copy(rt: &impl Abort, alloc: Global, glob: &Glob) -> Glob {
    glob.copied(alloc).expect(rt, "a copy")
}

fn matches(rt: &impl Abort, alloc: Global, glob: &Glob, value: &Folded) -> (bool, bool) {
    let mut scratch = Scratch::new(alloc).expect(rt, "a scratch");
    let mut meter = Meter::new();
    let whole = glob.whole(value, &mut scratch, &mut meter);
    (whole, glob.word(value, &mut scratch, &mut meter))
}

#[test]
fn names_are_found_as_words(rt: HostRuntime) {
    for (name, value, wanted) in [
        ("Alice", "hello ALICE!", true),
        ("Alice", "malice", false),
        ("Straße", "STRASSE", true),
        ("", "a  b", true),
        ("", "ab", false),
        ("al ice", "my al ice", true),
    ] {
        assert_eq!(rt;
            has_word(&rt, rt.alloc(), name, value),
            wanted,
            "{name} in {value}"
        );
    }
}

fn has_word(rt: &impl Abort, alloc: Global, name: &str, value: &str) -> bool {
    let name = folded(rt, alloc, name);
    word_literal(&name, &folded(rt, alloc, value), &mut Meter::new())
}

/// More texts than a scratch keeps, some of one length, each asked about again after the others.
#[test]
fn one_scratch_serves_many_texts(rt: HostRuntime) {
    let glob = Glob::read(rt.alloc(), "cake*").expect(&rt, "a glob");
    let mut scratch = Scratch::new(rt.alloc()).expect(&rt, "a scratch");
    for (text, wanted) in [
        ("CAKE", (true, true)),
        ("bake", (false, false)),
        ("a cake", (false, true)),
        ("a bake", (false, false)),
        ("cake2", (true, true)),
        ("cheesecake", (false, false)),
        ("", (false, false)),
        ("cakes", (true, true)),
        ("rakes", (false, false)),
        ("my cake", (false, true)),
        ("bake", (false, false)),
        ("CAKE", (true, true)),
        ("a cake", (false, true)),
    ] {
        assert_eq!(rt;
            text_answers(&rt, &glob, text, &mut scratch),
            wanted,
            "{text}"
        );
    }
}

fn text_answers(rt: &impl Abort, glob: &Glob, text: &str, scratch: &mut Scratch) -> (bool, bool) {
    let mut meter = Meter::new();
    let whole = glob.whole_text(text, scratch, &mut meter);
    let word = glob.word_of_text(text, scratch, &mut meter);
    (whole.expect(rt, "an answer"), word.expect(rt, "an answer"))
}

#[test]
fn a_name_is_found_in_a_text(rt: HostRuntime) {
    let mut scratch = Scratch::new(rt.alloc()).expect(&rt, "a scratch");
    for (name, text, wanted) in [
        ("Alice", "hello ALICE!", true),
        ("Alina", "hello ALICE!", false),
        ("Straße", "STRASSE", true),
    ] {
        assert_eq!(rt;
            is_named(&rt, name, text, &mut scratch),
            wanted,
            "{name} in {text}"
        );
    }
}

fn is_named(rt: &impl Abort, name: &str, text: &str, scratch: &mut Scratch) -> bool {
    name_of_text(name, text, scratch, &mut Meter::new()).expect(rt, "an answer")
}
