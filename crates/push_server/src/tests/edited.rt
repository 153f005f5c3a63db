//! Edits that are refused, edits at each bound, and how events are judged by edited rules: each
//! told through `serve`; the user is `@b:example.org`.

use super::edits::{edit_line, say_accepted, say_edit, say_rules};
use super::fixtures::{Script, is_served};
use std::alloc::Global;
use std::process::Abort;

/// What follows `{"cmd":"rule_` in an edit's line, and what is told after `"error":`.
type Refused = (&'static str, &'static str);

#[test]
fn the_first_cause_refuses_an_edit(rt: HostRuntime) {
    assert!(rt; are_refused(&rt, rt.alloc(), &REFUSED));
}

#[test]
fn the_first_wrong_part_of_a_rule(rt: HostRuntime) {
    assert!(rt; are_refused(&rt, rt.alloc(), &BAD_RULES));
}

/// Whether each of these is refused so, of a user who made one rule, which is left.
fn are_refused(rt: &impl Abort, alloc: Global, edits: &[Refused]) -> bool {
    let mut script = Script::new(alloc);
    let made = say_edit(rt, alloc, &mut script, PUT_X, "", 0);
    for (fields, refusal) in edits {
        say_edit(rt, alloc, &mut script, fields, refusal, made);
    }
    say_rules(rt, alloc, &mut script, &["x", "", "", "", ""]);
    is_served(rt, alloc, &script, 0)
}

const PUT_X: &str = r#"put","actions":[],"kind":"override","rule_id":"x""#;

#[rattlefmt::skip]
static REFUSED: [Refused; 15] = [
    (r#"put","actions":["dance"],"kind":"override","rule_id":".x""#, r#""RuleReserved""#),
    (r#"put","actions":["dance"],"kind":"override","rule_id":"x/y""#, r#""RuleReserved""#),
    (r#"put","actions":["dance"],"kind":"override","rule_id":"x\\y""#, r#""RuleReserved""#),
    (r#"put","actions":[],"kind":"room","rule_id":".x""#, r#""RuleReserved""#),
    (r#"put","actions":["dance"],"before":"q","kind":"override","rule_id":"y""#, r#""BadRule","part":"actions""#),
    (r#"put","actions":[],"before":"q","kind":"override","rule_id":"y""#, r#""AnchorUnknown""#),
    (r#"delete","kind":"override","rule_id":".m.rule.master""#, r#""RuleReserved""#),
    (r#"delete","kind":"override","rule_id":".x""#, r#""RuleReserved""#),
    (r#"delete","kind":"override","rule_id":"x/y""#, r#""RuleUnknown""#),
    (r#"delete","kind":"underride","rule_id":"x""#, r#""RuleUnknown""#),
    (r#"enable","enabled":true,"kind":"underride","rule_id":"x""#, r#""RuleUnknown""#),
    (r#"enable","enabled":true,"kind":"override","rule_id":".x""#, r#""RuleUnknown""#),
    (r#"actions","actions":["dance"],"kind":"override","rule_id":"q""#, r#""BadRule","part":"actions""#),
    (r#"actions","actions":[],"kind":"override","rule_id":"q""#, r#""RuleUnknown""#),
    (r#"enable","kind":"override","rule_id":"x""#, r#""BadField","field":"enabled""#),
];

#[rattlefmt::skip]
static BAD_RULES: [Refused; 16] = [
    (r#"put","actions":["dance"],"kind":"room","rule_id":"r:example.org""#, r#""BadRule","part":"rule_id""#),
    (r#"put","actions":["dance"],"kind":"sender","rule_id":"!r:example.org""#, r#""BadRule","part":"rule_id""#),
    (r#"put","actions":["dance"],"kind":"content","rule_id":"c""#, r#""BadRule","part":"pattern""#),
    (r#"put","actions":["dance"],"conditions":[7],"kind":"override","pattern":"cake","rule_id":"o""#,
        r#""BadRule","part":"conditions""#),
    (r#"put","actions":["dance"],"conditions":[{"kind":"event_match","key":"type"}],"kind":"underride","rule_id":"o""#,
        r#""BadRule","part":"conditions""#),
    (r#"put","actions":[],"conditions":[{"kind":"contains_display_name"},{"kind":"event_match","key":"type","pattern":7},{"kind":"unheard_of"}],"kind":"override","rule_id":"o""#,
        r#""BadRule","part":"conditions""#),
    (r#"put","actions":["dance"],"conditions":[{"kind":"unheard_of"}],"kind":"override","rule_id":"o""#,
        r#""BadRule","part":"actions""#),
    (r#"put","actions":["dance"],"conditions":[7],"kind":"content","pattern":"cake","rule_id":"c""#,
        r#""BadRule","part":"actions""#),
    (r#"put","actions":["notify","dance"],"kind":"room","rule_id":"!r:example.org""#, r#""BadRule","part":"actions""#),
    (r#"put","actions":["notify",{"value":1}],"kind":"override","rule_id":"o""#, r#""BadRule","part":"actions""#),
    (r#"put","actions":[{"set_tweak":7}],"kind":"override","rule_id":"o""#, r#""BadRule","part":"actions""#),
    (r#"put","actions":["coalesce",null],"kind":"override","rule_id":"o""#, r#""BadRule","part":"actions""#),
    (r#"actions","actions":["dont_notify",["notify"]],"kind":"override","rule_id":".m.rule.master""#,
        r#""BadRule","part":"actions""#),
    (r#"put","actions":[],"conditions":{},"kind":"content","pattern":"cake","rule_id":"c""#,
        r#""BadField","field":"conditions""#),
    (r#"put","actions":[],"kind":"room","pattern":7,"rule_id":"!r:example.org""#, r#""BadField","field":"pattern""#),
    (r#"put","actions":[],"kind":"global","rule_id":"x""#, r#""BadField","field":"kind""#),
];

#[test]
fn a_remote_user_has_no_rules(rt: HostRuntime) {
    let mut script = Script::new(rt.alloc());
    script.say_each(&rt, &REMOTE, r#"= {"error":"NotLocal"}"#);
    assert!(rt; is_served(&rt, rt.alloc(), &script, 0));
}

static REMOTE: [&str; 3] = [
    r#"{"cmd":"rule_put","actions":[],"kind":"override","rule_id":".x","user":"@z:other.org"}"#,
    r#"{"cmd":"rule_delete","kind":"override","rule_id":"x","user":"@z:other.org"}"#,
    r#"{"cmd":"rules","user":"@z:other.org"}"#,
];

// ---- bounds

#[test]
fn a_rule_has_64_conditions_and_32_actions(rt: HostRuntime) {
    assert!(rt; are_bounded(&rt, rt.alloc()));
}

fn are_bounded(rt: &impl Abort, alloc: Global) -> bool {
    let mut script = Script::new(alloc);
    let mut position = 0;
    for (conditions, actions, refusal) in LIST_BOUNDS {
        let fields = listed_fields(rt, alloc, conditions, actions);
        position = say_edit(rt, alloc, &mut script, fields.as_str(), refusal, position);
    }
    is_served(rt, alloc, &script, 0)
}

/// So many conditions and actions, and what is told.
#[rattlefmt::skip]
static LIST_BOUNDS: [(usize, usize, &str); 3] = [
    (64, 32, ""),
    (65, 33, r#""BadRule","part":"conditions""#),
    (64, 33, r#""BadRule","part":"actions""#),
];

fn listed_fields(rt: &impl Abort, alloc: Global, conditions: usize, actions: usize) -> String {
    let conditions = repeated(rt, alloc, r#"{"kind":"contains_display_name"}"#, conditions);
    let actions = repeated(rt, alloc, r#""notify""#, actions);
    format!(in alloc;
        r#"put","actions":[{actions}],"conditions":[{conditions}],"kind":"override","rule_id":"x""#
    ).expect(rt, "fields")
}

/// This text so many times, with commas between.
fn repeated(rt: &impl Abort, alloc: Global, text: &str, times: usize) -> String {
    let mut repeated = String::new(alloc);
    for k in 0..times {
        if k > 0 {
            repeated.push(',').expect(rt, text);
        }
        repeated.push_str(text).expect(rt, text);
    }
    repeated
}

#[test]
fn a_pattern_and_an_id_have_their_bytes(rt: HostRuntime) {
    assert!(rt; are_long(&rt, rt.alloc()));
}

fn are_long(rt: &impl Abort, alloc: Global) -> bool {
    let mut script = Script::new(alloc);
    let mut position = 0;
    for (pattern, id, refusal) in TEXT_BOUNDS {
        let fields = format!(in alloc;
            r#"put","actions":[],"kind":"content","pattern":"{:p>pattern$}","rule_id":"{:i>id$}""#,
            "", ""
        )
        .expect(rt, "fields");
        position = say_edit(rt, alloc, &mut script, fields.as_str(), refusal, position);
    }
    is_served(rt, alloc, &script, 0)
}

/// How many bytes the pattern and the id have, and what is told.
#[rattlefmt::skip]
static TEXT_BOUNDS: [(usize, usize, &str); 4] = [
    (1024, 512, ""),
    (1025, 512, r#""BadRule","part":"pattern""#),
    (1025, 513, r#""BadField","field":"rule_id""#),
    (1024, 0, r#""BadField","field":"rule_id""#),
];

#[test]
fn a_user_has_1000_rules(rt: HostRuntime) {
    assert!(rt; are_full(&rt, rt.alloc()));
}

fn are_full(rt: &impl Abort, alloc: Global) -> bool {
    let mut script = Script::new(alloc);
    let mut position = 0;
    for k in 0..1000 {
        let fields = format!(in alloc;
            r#"put","actions":[],"kind":"override","rule_id":"{k}""#
        ).expect(rt, "fields");
        position = say_edit(rt, alloc, &mut script, fields.as_str(), "", position);
    }
    for (fields, refusal) in FULL {
        position = say_edit(rt, alloc, &mut script, fields, refusal, position);
    }
    is_served(rt, alloc, &script, 0)
}

/// Edits of a user who made 1,000 override rules, and what is told.
#[rattlefmt::skip]
static FULL: [Refused; 7] = [
    (r#"put","actions":[],"kind":"underride","rule_id":"1000""#, r#""RulesFull","limit":1000"#),
    (r#"put","actions":[],"kind":"underride","rule_id":"7""#, r#""RulesFull","limit":1000"#),
    (r#"put","actions":[],"before":"q","kind":"override","rule_id":"1000""#, r#""AnchorUnknown""#),
    (r#"put","actions":["notify"],"kind":"override","rule_id":"7""#, ""),
    (r#"put","actions":["notify"],"before":"9","kind":"override","rule_id":"7""#, ""),
    (r#"delete","kind":"override","rule_id":"7""#, ""),
    (r#"put","actions":[],"kind":"underride","rule_id":"1000""#, ""),
];

// ---- how events are judged

/// What is said after two users joined a room, all of it accepted, and the counts of `@b` then: an
/// edit, or a message of `@a` after `say `.
struct Judged {
    name: &'static str,
    said: &'static [&'static str],
    notify: u32,
    highlight: u32,
}

#[test]
fn the_rules_in_force_judge(rt: HostRuntime) {
    assert_eq!(rt; wrong_judged(&rt, rt.alloc(), &JUDGED), "");
}

fn wrong_judged(rt: &impl Abort, alloc: Global, rows: &[Judged]) -> &'static str {
    for row in rows {
        if !is_judged(rt, alloc, row) {
            return row.name;
        }
    }
    ""
}

fn is_judged(rt: &impl Abort, alloc: Global, row: &Judged) -> bool {
    let mut script = Script::new(alloc);
    say_accepted(rt, alloc, &mut script, A_JOINS, 1);
    say_accepted(rt, alloc, &mut script, B_JOINS, 2);
    let mut position = 2;
    for said in row.said {
        position = said_line(rt, alloc, &mut script, said, position);
    }
    let (notify, highlight) = (row.notify, row.highlight);
    let counts = format!(in alloc;
        r#"= {{"highlight_count":{highlight},"notification_count":{notify},"threads":{{}}}}"#
    ).expect(rt, row.name);
    script.say(rt, COUNTS.as_bytes(), counts.as_str());
    is_served(rt, alloc, &script, 0)
}

fn said_line(
    rt: &impl Abort,
    alloc: Global,
    script: &mut Script,
    said: &str,
    position: u32,
) -> u32 {
    let next = position.saturating_add(1);
    let line = match said.strip_prefix("say ") {
        Some(body) => message_line(rt, alloc, body, next),
        None => edit_line(rt, alloc, said),
    };
    say_accepted(rt, alloc, script, line.as_str(), next);
    next
}

fn message_line(rt: &impl Abort, alloc: Global, body: &str, number: u32) -> String {
    format!(in alloc;
        r#"{{"cmd":"event","event":{{"content":{{"body":"{body}","msgtype":"m.text"}},"event_id":"${number}","room_id":"!r:example.org","sender":"@a:example.org","type":"m.room.message"}}}}"#
    ).expect(rt, body)
}

const A_JOINS: &str =
    r#"{"cmd":"event","event":{"content":{"membership":"join"},"event_id":"$1","room_id":"!r:example.org","sender":"@a:example.org","state_key":"@a:example.org","type":"m.room.member"}}"#;

const B_JOINS: &str =
    r#"{"cmd":"event","event":{"content":{"membership":"join"},"event_id":"$2","room_id":"!r:example.org","sender":"@b:example.org","state_key":"@b:example.org","type":"m.room.member"}}"#;

const COUNTS: &str = r#"{"cmd":"counts","room_id":"!r:example.org","user":"@b:example.org"}"#;

const CAKE: &str =
    r#"put","actions":["notify",{"set_tweak":"highlight"}],"kind":"content","pattern":"cake","rule_id":"c""#;

const QUIET_ROOM: &str = r#"put","actions":[],"kind":"room","rule_id":"!r:example.org""#;

const NO_QUIET_ROOM: &str = r#"enable","enabled":false,"kind":"room","rule_id":"!r:example.org""#;

const MASTER: &str = r#"enable","enabled":true,"kind":"override","rule_id":".m.rule.master""#;

#[rattlefmt::skip]
static JUDGED: [Judged; 7] = [
    Judged { name: "a content rule for cake", said: &[CAKE, "say cheesecake", "say CAKE!", "say a_cake", "say écake"],
        notify: 4, highlight: 2 },
    Judged { name: "a room rule disabled when the event came", said: &[QUIET_ROOM, "say hi", NO_QUIET_ROOM, "say hi",
        r#"enable","enabled":true,"kind":"room","rule_id":"!r:example.org""#], notify: 1, highlight: 0 },
    Judged { name: "a rule that comes after the event", said: &["say cake", CAKE], notify: 1, highlight: 0 },
    Judged { name: "a rule that was deleted",
        said: &[CAKE, "say cake", r#"delete","kind":"content","rule_id":"c""#, "say cake"], notify: 2, highlight: 1 },
    Judged { name: "the master", said: &["say hi", MASTER, "say hi"], notify: 1, highlight: 0 },
    Judged { name: "the master with actions of its own", said: &[MASTER,
        r#"actions","actions":["notify",{"set_tweak":"highlight"}],"kind":"override","rule_id":".m.rule.master""#,
        "say hi"], notify: 1, highlight: 1 },
    Judged { name: "a rule before others by its place",
        said: &[r#"put","actions":["notify",{"set_tweak":"highlight"}],"kind":"sender","rule_id":"@a:example.org""#,
        "say hi", r#"put","actions":[],"kind":"override","rule_id":"o""#, "say hi", QUIET_ROOM, "say hi"], notify: 1,
        highlight: 1 },
];
