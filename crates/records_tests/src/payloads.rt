use mx_records::{EntryError, decode, encode_into};
use std::alloc::Global;
use std::process::Abort;

/// Where bytes that are no payload have their fault; `None` where they are one.
fn fault_of(rt: &impl Abort, alloc: Global, payload: &[u8]) -> Option<usize> {
    match decode(alloc, payload) {
        Ok(_) => None,
        Err(EntryError::BadEntry(offset)) => Some(offset),
        Err(EntryError::OutOfMemory) => rt.panic("out of memory"),
    }
}

/// The same of an input's payload that has this text.
fn fault_of_text(rt: &impl Abort, alloc: Global, text: &str) -> Option<usize> {
    let mut payload = Vec::new(alloc);
    payload.push(1).expect(rt, "a tag");
    payload
        .extend_from_slice(text.as_bytes())
        .expect(rt, "a text");
    fault_of(rt, alloc, payload.as_slice())
}

/// Whether a payload is written again as it was read.
fn is_written_again(rt: &impl Abort, alloc: Global, payload: &[u8]) -> bool {
    match decode(alloc, payload) {
        Ok(entry) => {
            let mut again = Vec::new(alloc);
            encode_into(alloc, &entry, &mut again).expect(rt, "a payload");
            again.as_slice() == payload
        }
        Err(_) => false,
    }
}

#[test]
fn an_entry_is_read_from_its_one_payload(rt: HostRuntime) {
    for (payload, expected) in PAYLOADS {
        assert_eq!(rt;
            fault_of(&rt, rt.alloc(), payload),
            *expected,
            "{payload:?}"
        );
    }
}

#[test]
fn an_input_is_read_from_its_one_text(rt: HostRuntime) {
    for (text, expected) in TEXTS {
        assert_eq!(rt; fault_of_text(&rt, rt.alloc(), text), *expected, "{text}");
    }
}

#[test]
fn a_payload_is_written_as_it_was_read(rt: HostRuntime) {
    assert!(rt; is_written_again(&rt, rt.alloc(), ENABLE));
    assert!(rt; is_written_again(&rt, rt.alloc(), PUSHED));
}

/// The payload of an edit: the tag and 106 bytes.
static ENABLE: &[u8] =
    b"\x01{\"cmd\":\"rule_enable\",\"enabled\":false,\"kind\":\"override\",\"rule_id\":\".m.rule.master\",\"user\":\"@b:example.org\"}";

/// The payload of an outcome: pusher 4 was told of the event at position 260.
static PUSHED: &[u8] = b"\x02\x04\0\0\0\0\0\0\0\x04\x01\0\0\0\0\0\0";

#[rattlefmt::skip]
static PAYLOADS: &[(&[u8], Option<usize>)] = &[
    (b"", Some(0)),
    (b"\0", Some(0)),
    (b"\x05\x04\0\0\0\0\0\0\0\x05\0\0\0\0\0\0\0", Some(0)),
    (b"{}", Some(0)),
    (b"\x01", Some(1)),
    (b"\x01{}", Some(1)),
    (b"\x01\xff", Some(1)),
    (b"\x02", Some(1)),
    (b"\x02\x04\0\0\0\0\0\0\0\x05\0\0\0\0\0\0\0", None),
    (b"\x03\x04\0\0\0\0\0\0\0\x05\0\0\0\0\0\0\0", None),
    (b"\x04\xff\xff\xff\xff\xff\xff\xff\xff\xff\xff\xff\xff\xff\xff\xff\xff", None),
    (b"\x02\x04\0\0\0\0\0\0\0\x05\0\0\0\0\0\0", Some(1)),
    (b"\x03\x04\0\0\0\0\0\0\0\x05\0\0\0\0\0\0\0\0", Some(1)),
];

#[rattlefmt::skip]
static TEXTS: &[(&str, Option<usize>)] = &[
    (r#"{"cmd":"rule_enable","enabled":false,"kind":"override","rule_id":".m.rule.master","user":"@b:example.org"}"#, None),
    (r#"{"cmd":"rule_enable", "enabled":false,"kind":"override","rule_id":".m.rule.master","user":"@b:example.org"}"#, Some(1)),
    (r#"{"enabled":false,"cmd":"rule_enable","kind":"override","rule_id":".m.rule.master","user":"@b:example.org"}"#, Some(1)),
    (r#"{"cmd":"rule_enable","enabled":false,"id":7,"kind":"override","rule_id":".m.rule.master","user":"@b:example.org"}"#,
        Some(1)),
    (r#"{"cmd":"rule_enable","enabled":false,"kind":"override","rule_id":"\u002em.rule.master","user":"@b:example.org"}"#,
        Some(1)),
    (r#"{"cmd":"rule_delete","kind":"content","rule_id":"é","user":"@b:example.org"}"#, None),
    (r#"{"cmd":"rule_delete","kind":"content","rule_id":"\u00e9","user":"@b:example.org"}"#, Some(1)),
    (r#"{"cmd":"counts","room_id":"!r","user":"@b:example.org"}"#, Some(1)),
    (r#"{"actions":["notify"],"after":"a","before":"b","cmd":"rule_put","conditions":[],"kind":"room","pattern":"p","rule_id":"r","user":"@b:c"}"#,
        None),
    (r#"{"actions":[],"cmd":"rule_put","kind":"room","rule_id":"r","user":"@b:c"}"#, None),
    (r#"{"actions":[],"cmd":"rule_put","kind":"room","pattern":null,"rule_id":"r","user":"@b:c"}"#, Some(1)),
    (r#"{"actions":["dont_notify"],"cmd":"rule_actions","kind":"underride","rule_id":"r","user":"@b:c"}"#, None),
    (r#"{"cmd":"receipt","event_id":"$1","room_id":"!r","thread_id":"$2","type":"m.read.private","user":"@b:c"}"#, None),
    (r#"{"cmd":"receipt","event_id":"$1","room_id":"!r","type":"m.read","user":"@b:c"}"#, None),
    (r#"{"cmd":"event","event":{"content":{},"event_id":"$1","origin":"o","room_id":"!r","sender":"@a:b","type":"t"}}"#, None),
    (r#"{"cmd":"event","event":{"content":{"n":1},"event_id":"$1","room_id":"!r","sender":"@a:b","state_key":"","type":"t"}}"#,
        None),
    (r#"{"cmd":"event","event":{"content":{"n":1.0},"event_id":"$1","room_id":"!r","sender":"@a:b","type":"t"}}"#, Some(1)),
    (r#"{"cmd":"event","event":{"content":{},"event_id":"$1","room_id":"!r","sender":"@a:b","type":"t"},"ts":7}"#, Some(1)),
    (r#"{"app_id":"a","cmd":"pusher","kind":null,"pushkey":"k","user":"@b:c"}"#, None),
    (r#"{"app_id":"a","cmd":"pusher","kind":null,"lang":"en","pushkey":"k","user":"@b:c"}"#, Some(1)),
    (r#"{"app_display_name":"","app_id":"é","append":false,"cmd":"pusher","data":{"brand":7,"format":"f","url":"u"},"device_display_name":"d","kind":"http","lang":"en","pushkey":"k","ts":0,"user":"@b:c"}"#,
        None),
    (r#"{"app_display_name":"","app_id":"a","cmd":"pusher","data":{"url":""},"device_display_name":"d","kind":"http","lang":"en","pushkey":"k","ts":9007199254740991,"user":"@b:c"}"#,
        None),
    (r#"{"app_display_name":"","app_id":"a","cmd":"pusher","data":{},"device_display_name":"d","kind":"http","lang":"en","pushkey":"k","ts":0,"user":"@b:c"}"#,
        Some(1)),
    (r#"{"app_display_name":"","app_id":"a","cmd":"pusher","data":{"url":""},"device_display_name":"d","kind":"http","lang":"en","pushkey":"k","ts":-1,"user":"@b:c"}"#,
        Some(1)),
    (r#"{"app_display_name":"","app_id":"a","cmd":"pusher","data":{"url":""},"device_display_name":"d","kind":"email","lang":"en","pushkey":"k","ts":0,"user":"@b:c"}"#,
        Some(1)),
];
