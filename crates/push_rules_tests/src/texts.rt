//! Texts that are read as JSON values, and how values are printed.
use crate::fixtures::{canonical, json};
use mx_json::{Json, JsonError};
use std::alloc::Global;
use std::process::Abort;

/// Why a text is no JSON value; none where it is one.
fn refusal(rt: &impl Abort, alloc: Global, bytes: &[u8], deepest: u32) -> Option<JsonError> {
    assert!(rt; deepest <= 127);
    Json::from_text(alloc, bytes, deepest).err()
}

#[test]
fn texts_that_are_refused(rt: HostRuntime) {
    for (text, wanted) in REFUSED {
        assert_eq!(rt;
            refusal(&rt, rt.alloc(), text.as_bytes(), 100),
            wanted,
            "at {text}"
        );
    }
    let not_text = b"\"\xff\"".as_slice();
    assert_eq!(rt;
        refusal(&rt, rt.alloc(), not_text, 100),
        Some(JsonError::BadJson)
    );
}

#[rattlefmt::skip]
static REFUSED: [(&str, Option<JsonError>); 19] = [
    ("null", None),
    ("", Some(JsonError::BadJson)),
    ("[1", Some(JsonError::BadJson)),
    ("[1]]", Some(JsonError::BadJson)),
    ("{'a':1}", Some(JsonError::BadJson)),
    ("\"é\"", None),
    ("01", Some(JsonError::BadJson)),
    ("1e400", Some(JsonError::BadJson)),
    ("9007199254740991", None),
    ("9007199254740992", Some(JsonError::NotWhole)),
    ("-9007199254740991", None),
    ("-9007199254740992", Some(JsonError::NotWhole)),
    ("18446744073709551616", Some(JsonError::NotWhole)),
    ("1.5", Some(JsonError::NotWhole)),
    ("1.0", Some(JsonError::NotWhole)),
    ("1e2", Some(JsonError::NotWhole)),
    ("-0", Some(JsonError::NotWhole)),
    (r#"{"a":[0,{"b":1.5}]}"#, Some(JsonError::NotWhole)),
    (r#"{"a":1.5"#, Some(JsonError::BadJson)),
];

#[test]
fn texts_that_are_nested(rt: HostRuntime) {
    for (text, deepest, wanted) in [
        ("1", 0, None),
        (" [ ] ", 1, None),
        ("[]", 0, Some(JsonError::BadJson)),
        (r#"{"a":{}}"#, 2, None),
        (r#"{"a":{}}"#, 1, Some(JsonError::BadJson)),
        // A number that isn't whole is told only where the value isn't too deep.
        ("[1.5]", 0, Some(JsonError::BadJson)),
    ] {
        assert_eq!(rt;
            refusal(&rt, rt.alloc(), text.as_bytes(), deepest),
            wanted,
            "at {text}"
        );
    }
}

#[test]
fn lists_in_one_another(rt: HostRuntime) {
    for (depth, deepest, wanted) in [
        (100, 100, None),
        (101, 100, Some(JsonError::BadJson)),
        (127, 127, None),
        (128, 127, Some(JsonError::BadJson)),
    ] {
        let text = nested(&rt, rt.alloc(), depth);
        assert_eq!(rt;
            refusal(&rt, rt.alloc(), text.as_bytes(), deepest),
            wanted,
            "at {depth}"
        );
    }
}

fn nested(rt: &impl Abort, alloc: Global, depth: usize) -> String {
    format!(in alloc; "{:[>depth$}{:]>depth$}", "", "").expect(rt, "a nested text")
}

#[test]
fn canonical_texts(rt: HostRuntime) {
    for (text, wanted) in CANONICAL {
        assert!(rt; is_printed(&rt, rt.alloc(), text, wanted), "at {text}");
    }
}

/// Whether a value is printed so.
fn is_printed(rt: &impl Abort, alloc: Global, text: &str, wanted: &str) -> bool {
    canonical(rt, alloc, &json(rt, alloc, text)).as_slice() == wanted.as_bytes()
}

#[rattlefmt::skip]
static CANONICAL: [(&str, &str); 19] = [
    // The examples of the Matrix specification's appendix.
    ("{}", "{}"),
    (r#"{"one": 1, "two": "Two"}"#, r#"{"one":1,"two":"Two"}"#),
    (r#"{"b": "2", "a": "1"}"#, r#"{"a":"1","b":"2"}"#),
    (r#"{"a": "日本語"}"#, r#"{"a":"日本語"}"#),
    (r#"{"本": 2, "日": 1}"#, r#"{"日":1,"本":2}"#),
    (r#"{"a": "\u65E5"}"#, r#"{"a":"日"}"#),
    (r#"{"a": null}"#, r#"{"a":null}"#),
    // Keys by code point, which isn't the order of their UTF-16 units.
    (r#"{"\ud83d\ude00":2,"\uff61":1}"#, r#"{"｡":1,"😀":2}"#),
    (r#"{"b":0,"aa":0,"a":0,"":0}"#, r#"{"":0,"a":0,"aa":0,"b":0}"#),
    // Each escape, and what stands for itself.
    (r#""\u0008\u000c\u000a\u000d\u0009\u0022\u005c""#, r#""\b\f\n\r\t\"\\""#),
    (r#""\u0000\u0007\u000b\u000E\u001F""#, r#""\u0000\u0007\u000b\u000e\u001f""#),
    (r#""\u0020\u007f\/\u0080""#, "\" \u{7f}/\u{80}\""),
    (r#""\ud83d\ude00""#, "\"😀\""),
    (r#"{"\n":0}"#, r#"{"\n":0}"#),
    // Numbers, and the other values.
    ("0", "0"),
    ("-1", "-1"),
    ("9007199254740991", "9007199254740991"),
    ("-9007199254740991", "-9007199254740991"),
    (" [ true , false , [ ] , { } ] ", "[true,false,[],{}]"),
];
