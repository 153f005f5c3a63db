//! The texts of counts.

ghost use Rattle.std.specs.Prelude.{◌≡◌, true};
ghost use Rattle.mx_json.specs.Json.{is_valid};

use super::{counts_value, with_roots};
use mx_json::{Json, OutOfMemory};
use mx_records::Counts;
use std::alloc::Global;
use std::collections::BTreeMap;
use std::test::Fail;

const MAIN: Counts = Counts {
    notify: 7,
    highlight: 0,
};

fn text_of(alloc: Global, value: &Json) -> Result<Vec<u8>, OutOfMemory>
    requires { is_valid value.now ≡ true }
{
    let mut text = Vec::new(alloc);
    value.canonical_into(alloc, &mut text)?;
    Ok(text)
}

/// The text of counts with two roots, the first of which has one event, and the other three.
fn two_roots<'a>(alloc: Global, first: &'a str, second: &'a str) -> Result<Vec<u8>, OutOfMemory> {
    let mut roots = BTreeMap::new(alloc);
    roots.insert(
        first,
        Counts {
            notify: 1,
            highlight: 0,
        },
    )?;
    roots.insert(
        second,
        Counts {
            notify: 3,
            highlight: 2,
        },
    )?;
    text_of(alloc, &with_roots(alloc, MAIN, &roots)?)
}

#[test]
fn the_ids_of_roots_rise(rt: HostRuntime) -> Result<(), Fail> {
    let expected =
        r#"{"highlight_count":0,"notification_count":7,"threads":{"$a":{"highlight_count":2,"notification_count":3},"$b":{"highlight_count":0,"notification_count":1}}}"#;
    assert_eq!(rt;
        two_roots(rt.alloc(), "$b", "$a")?.as_slice(),
        expected.as_bytes()
    );
    Ok(())
}

#[test]
fn the_ids_of_roots_are_quoted(rt: HostRuntime) -> Result<(), Fail> {
    let expected =
        r#"{"highlight_count":0,"notification_count":7,"threads":{"$\"":{"highlight_count":0,"notification_count":1},"$\\":{"highlight_count":2,"notification_count":3}}}"#;
    assert_eq!(rt;
        two_roots(rt.alloc(), "$\"", "$\\")?.as_slice(),
        expected.as_bytes()
    );
    Ok(())
}

#[test]
fn counts_in_sum(rt: HostRuntime) -> Result<(), Fail> {
    let value = counts_value(rt.alloc(), MAIN)?;
    let expected = r#"{"highlight_count":0,"notification_count":7}"#;
    assert_eq!(rt;
        text_of(rt.alloc(), &value)?.as_slice(),
        expected.as_bytes()
    );
    Ok(())
}
