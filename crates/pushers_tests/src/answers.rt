//! What a gateway's reply says of the pushkey `k1`.
use mx_post::{Answer, answer};
use std::alloc::Global;
use std::process::Abort;

fn answered(rt: &impl Abort, alloc: Global, status: u16, body: &[u8]) -> Answer {
    answer(alloc, status, body, "k1").expect(rt, "memory")
}

#[test]
fn a_reply_settles_or_fails(rt: HostRuntime) {
    for (status, body, expected) in REPLIES {
        assert_eq!(rt;
            answered(&rt, rt.alloc(), status, body.as_bytes()),
            expected,
            "{status} {body}"
        );
    }
}

#[rattlefmt::skip]
static REPLIES: [(u16, &str, Answer); 18] = [
    // The pushkey is rejected, or another.
    (200, r#"{"rejected":["k1"]}"#, Answer::Rejected),
    (200, r#"{"rejected":["k2","k1"]}"#, Answer::Rejected),
    (200, r#"{"rejected":[1,null,{"k1":1},"k1"]}"#, Answer::Rejected),
    (200, r#"{"rejected":[]}"#, Answer::Pushed),
    (200, r#"{"rejected":["k2","app","k11","k",""]}"#, Answer::Pushed),
    (200, r#"{"rejected":[["k1"]]}"#, Answer::Pushed),
    // Nothing is rejected.
    (200, r#"{"rejected":"k1"}"#, Answer::Pushed),
    (200, r#"{"rejected":{"k1":true}}"#, Answer::Pushed),
    (200, r#"["k1"]"#, Answer::Pushed),
    (200, "{}", Answer::Pushed),
    (200, "", Answer::Pushed),
    (200, r#"{"rejected":["k1"]"#, Answer::Pushed),
    (200, r#"{"n":1.5,"rejected":["k1"]}"#, Answer::Pushed),
    // The status decides first.
    (199, r#"{"rejected":[]}"#, Answer::Failed),
    (299, r#"{"rejected":["k1"]}"#, Answer::Rejected),
    (204, "", Answer::Pushed),
    (300, r#"{"rejected":["k1"]}"#, Answer::Failed),
    (503, "", Answer::Failed),
];

/// Appends the byte so many times.
fn repeat(rt: &impl Abort, byte: u8, times: usize, out: &mut Vec<u8>) {
    for _ in 0..times {
        out.push(byte).expect(rt, "memory");
    }
}

/// A body that rejects the pushkey and is nested one deeper than there are lists in it.
fn nested(rt: &impl Abort, alloc: Global, lists: usize) -> Vec<u8> {
    let mut body = Vec::new(alloc);
    body.extend_from_slice(br#"{"deep":"#).expect(rt, "memory");
    repeat(rt, b'[', lists, &mut body);
    repeat(rt, b']', lists, &mut body);
    body.extend_from_slice(br#","rejected":["k1"]}"#)
        .expect(rt, "memory");
    body
}

fn answered_when_nested(rt: &impl Abort, alloc: Global, lists: usize) -> Answer {
    let body = nested(rt, alloc, lists);
    answered(rt, alloc, 200, body.as_slice())
}

#[test]
fn a_reply_is_read_127_deep(rt: HostRuntime) {
    for (lists, expected) in [(126, Answer::Rejected), (127, Answer::Pushed)] {
        assert_eq!(rt;
            answered_when_nested(&rt, rt.alloc(), lists),
            expected,
            "{lists}"
        );
    }
}
