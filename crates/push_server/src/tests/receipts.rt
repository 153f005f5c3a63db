//! What is unread, thread by thread: receipts, threads, changes of membership. Tables of rows, each
//! told through `serve`; an event has its position behind `$` as its id.

use super::fixtures::{Script, is_served};
use super::rooms::{Told, message_line, say_accepted, state_line};
use std::alloc::Global;
use std::process::Abort;

/// What is said, and what is replied.
#[derive(Clone, Copy)]
enum Step {
    /// An event, which is accepted.
    Event(Told),
    /// What a receipt has beside its command, and the name of its refusal, or nothing.
    Read(&'static str, &'static str),
    /// What `counts` has beside its command, and the object that is replied.
    Counts(&'static str, &'static str),
    /// A line with an edit of rules, which is accepted.
    Edit(&'static str),
}

struct Row {
    name: &'static str,
    steps: &'static [Step],
}

#[test]
fn threads_are_read_by_themselves(rt: HostRuntime) {
    assert_eq!(rt; wrong_row(&rt, rt.alloc(), &THREADS), "");
}

#[test]
fn who_is_muted_reacts_in_a_thread(rt: HostRuntime) {
    assert_eq!(rt; wrong_row(&rt, rt.alloc(), &MUTED), "");
}

#[test]
fn receipts_of_rooms_and_threads(rt: HostRuntime) {
    assert_eq!(rt; wrong_row(&rt, rt.alloc(), &RECEIPTS), "");
}

#[test]
fn receipts_that_are_refused(rt: HostRuntime) {
    assert_eq!(rt; wrong_row(&rt, rt.alloc(), &REFUSED), "");
}

#[test]
fn changes_of_membership_read_a_room(rt: HostRuntime) {
    assert_eq!(rt; wrong_row(&rt, rt.alloc(), &MEMBERSHIP), "");
}

/// The name of the first row whose replies are others; empty where there is none.
fn wrong_row(rt: &impl Abort, alloc: Global, rows: &[Row]) -> &'static str {
    for row in rows {
        if !is_answered(rt, alloc, row) {
            return row.name;
        }
    }
    ""
}

fn is_answered(rt: &impl Abort, alloc: Global, row: &Row) -> bool {
    let mut script = Script::new(alloc);
    let mut position = 0;
    for step in row.steps {
        position = say_step(rt, alloc, &mut script, *step, position);
    }
    is_served(rt, alloc, &script, 0)
}

/// Says a step after so many accepted inputs, and answers how many there are then.
fn say_step(
    rt: &impl Abort,
    alloc: Global,
    script: &mut Script,
    step: Step,
    position: usize,
) -> usize {
    match step {
        Step::Event(told) => say_event(rt, alloc, script, told, position.saturating_add(1)),
        Step::Read(fields, "") => say_read(rt, alloc, script, fields, position.saturating_add(1)),
        Step::Read(fields, refusal) => {
            say_refused(rt, alloc, script, fields, refusal);
            position
        }
        Step::Counts(fields, counts) => {
            say_counts(rt, alloc, script, fields, counts);
            position
        }
        Step::Edit(line) => {
            let next = position.saturating_add(1);
            say_accepted(rt, alloc, script, line, next);
            next
        }
    }
}

fn say_event(
    rt: &impl Abort,
    alloc: Global,
    script: &mut Script,
    told: Told,
    position: usize,
) -> usize {
    let line = match told.3 {
        Some(key) => state_line(rt, alloc, told, key, position),
        None => message_line(rt, alloc, told, position),
    };
    say_accepted(rt, alloc, script, line.as_str(), position);
    position
}

fn say_read(
    rt: &impl Abort,
    alloc: Global,
    script: &mut Script,
    fields: &str,
    position: usize,
) -> usize {
    let line = receipt_line(rt, alloc, fields);
    say_accepted(rt, alloc, script, line.as_str(), position);
    position
}

fn say_refused(rt: &impl Abort, alloc: Global, script: &mut Script, fields: &str, refusal: &str) {
    let line = receipt_line(rt, alloc, fields);
    let reply = format!(in alloc; r#"= {{"error":"{refusal}"}}"#).expect(rt, refusal);
    script.say(rt, line.as_bytes(), reply.as_str());
}

fn receipt_line(rt: &impl Abort, alloc: Global, fields: &str) -> String {
    format!(in alloc; r#"{{"cmd":"receipt",{fields}}}"#).expect(rt, fields)
}

fn say_counts(rt: &impl Abort, alloc: Global, script: &mut Script, fields: &str, counts: &str) {
    let line = format!(in alloc; r#"{{"cmd":"counts",{fields}}}"#).expect(rt, fields);
    let reply = format!(in alloc; "= {counts}").expect(rt, counts);
    script.say(rt, line.as_bytes(), reply.as_str());
}

// ---- the words of the rows

const R: &str = "!r:example.org";

const S: &str = "!s:example.org";

const A: &str = "@a:example.org";

const B: &str = "@b:example.org";

const MEMBER: &str = "m.room.member";

const MESSAGE: &str = "m.room.message";

const JOIN: &str = r#"{"membership":"join"}"#;

const LEAVE: &str = r#"{"membership":"leave"}"#;

const A_JOINS: Step = Step::Event(Told(R, A, MEMBER, Some(A), JOIN));

const B_JOINS: Step = Step::Event(Told(R, B, MEMBER, Some(B), JOIN));

const B_LEAVES: Step = Step::Event(Told(R, B, MEMBER, Some(B), LEAVE));

const A_KICKS_B: Step = Step::Event(Told(R, A, MEMBER, Some(B), LEAVE));

const A_BANS_B: Step = Step::Event(Told(R, A, MEMBER, Some(B), r#"{"membership":"ban"}"#));

const A_INVITES_B: Step = Step::Event(Told(R, A, MEMBER, Some(B), r#"{"membership":"invite"}"#));

const HI: Step = Step::Event(Told(R, A, MESSAGE, None, r#"{"body":"hi","msgtype":"m.text"}"#));

/// A message in the thread of the third event.
const IN_3: Step = Step::Event(Told(
    R,
    A,
    MESSAGE,
    None,
    r#"{"body":"yes","m.relates_to":{"event_id":"$3","rel_type":"m.thread"},"msgtype":"m.text"}"#,
));

/// A reaction to the fourth event, one of the other user, and one to an event that nobody knows.
const TO_4: Step = Step::Event(Told(R, A, "m.reaction", None, LIKES_4));

const B_TO_4: Step = Step::Event(Told(R, B, "m.reaction", None, LIKES_4));

const LIKES_4: &str = r#"{"m.relates_to":{"event_id":"$4","key":"+1","rel_type":"m.annotation"}}"#;

const TO_ZZ: Step = Step::Event(Told(
    R,
    A,
    "m.reaction",
    None,
    r#"{"m.relates_to":{"event_id":"$zz","key":"+1","rel_type":"m.annotation"}}"#,
));

const OF_B: &str = r#""room_id":"!r:example.org","user":"@b:example.org""#;

const OF_A: &str = r#""room_id":"!r:example.org","user":"@a:example.org""#;

const OF_B_IN_SUM: &str = r#""room_id":"!r:example.org","threads":false,"user":"@b:example.org""#;

const NONE: &str = r#"{"highlight_count":0,"notification_count":0,"threads":{}}"#;

const ONE: &str = r#"{"highlight_count":0,"notification_count":1,"threads":{}}"#;

const TWO: &str = r#"{"highlight_count":0,"notification_count":2,"threads":{}}"#;

const TWO_IN_SUM: &str = r#"{"highlight_count":0,"notification_count":2}"#;

const ONE_AND_ONE: &str =
    r#"{"highlight_count":0,"notification_count":1,"threads":{"$3":{"highlight_count":0,"notification_count":1}}}"#;

const NONE_AND_ONE: &str =
    r#"{"highlight_count":0,"notification_count":0,"threads":{"$3":{"highlight_count":0,"notification_count":1}}}"#;

const ONE_AND_TWO: &str =
    r#"{"highlight_count":0,"notification_count":1,"threads":{"$3":{"highlight_count":0,"notification_count":2}}}"#;

const A_IS_MUTED: Step = Step::Edit(
    r#"{"cmd":"rule_enable","enabled":true,"kind":"override","rule_id":".m.rule.master","user":"@a:example.org"}"#,
);

const B_IS_MUTED: Step = Step::Edit(
    r#"{"cmd":"rule_enable","enabled":true,"kind":"override","rule_id":".m.rule.master","user":"@b:example.org"}"#,
);

const B_MUTES_R: Step = Step::Edit(
    r#"{"actions":[],"cmd":"rule_put","kind":"room","rule_id":"!r:example.org","user":"@b:example.org"}"#,
);

const B_WANTS_REACTIONS: Step = Step::Edit(
    r#"{"actions":["notify"],"cmd":"rule_put","conditions":[{"key":"type","kind":"event_match","pattern":"m.reaction"}],"kind":"override","rule_id":"x","user":"@b:example.org"}"#,
);

const UNKNOWN: &str = "UnknownEvent";

const NOT_IN: &str = "NotInThread";

#[rattlefmt::skip]
static THREADS: [Row; 1] = [
    Row { name: "threads, reactions and threaded receipts",
        steps: &[A_JOINS, B_JOINS, HI, IN_3, TO_4, TO_ZZ, Step::Counts(OF_B, ONE_AND_ONE),
        Step::Read(r#""event_id":"$6","room_id":"!r:example.org","thread_id":"$3","type":"m.read","user":"@b:example.org""#, NOT_IN),
        Step::Read(r#""event_id":"$5","room_id":"!r:example.org","thread_id":"$3","type":"m.read","user":"@b:example.org""#, ""), Step::Counts(OF_B, ONE),
        Step::Read(r#""event_id":"$3","room_id":"!r:example.org","thread_id":"$3","type":"m.read","user":"@b:example.org""#, ""), Step::Counts(OF_B, ONE),
        Step::Read(r#""event_id":"$zz","room_id":"!r:example.org","type":"m.read","user":"@b:example.org""#, UNKNOWN)] },
];

#[rattlefmt::skip]
static MUTED: [Row; 3] = [
    Row { name: "by the master rule", steps: &[A_JOINS, B_JOINS, HI, IN_3, B_IS_MUTED, B_TO_4, IN_3, HI,
        Step::Counts(OF_A, NONE), Step::Counts(OF_B, ONE_AND_ONE),
        Step::Read(r#""event_id":"$6","room_id":"!r:example.org","thread_id":"main","type":"m.read","user":"@b:example.org""#, NOT_IN),
        Step::Read(r#""event_id":"$6","room_id":"!r:example.org","thread_id":"$3","type":"m.read","user":"@b:example.org""#, ""), Step::Counts(OF_B, ONE)] },
    Row { name: "by a rule of the room", steps: &[A_JOINS, B_JOINS, HI, IN_3, B_MUTES_R, B_TO_4, IN_3, HI,
        Step::Counts(OF_A, NONE), Step::Counts(OF_B, ONE_AND_ONE),
        Step::Read(r#""event_id":"$6","room_id":"!r:example.org","type":"m.read","user":"@b:example.org""#, ""), Step::Counts(OF_B, NONE)] },
    Row { name: "and notifies who wants reactions",
        steps: &[A_JOINS, B_JOINS, HI, IN_3, B_WANTS_REACTIONS, A_IS_MUTED, TO_4, Step::Counts(OF_B, ONE_AND_TWO)] },
];

#[rattlefmt::skip]
static RECEIPTS: [Row; 7] = [
    Row { name: "a receipt of the room reads its threads",
        steps: &[A_JOINS, B_JOINS, HI, IN_3, Step::Counts(OF_B_IN_SUM, TWO_IN_SUM),
        Step::Read(r#""event_id":"$4","room_id":"!r:example.org","type":"m.read","user":"@b:example.org""#, ""),
        Step::Counts(OF_B, NONE)] },
    Row { name: "a receipt of the main thread", steps: &[A_JOINS, B_JOINS, HI, IN_3,
        Step::Read(r#""event_id":"$3","room_id":"!r:example.org","thread_id":"main","type":"m.read.private","user":"@b:example.org""#,
        ""), Step::Counts(OF_B, NONE_AND_ONE)] },
    Row { name: "a receipt of a thread after a later one of the room", steps: &[A_JOINS, B_JOINS, HI, IN_3, HI,
        Step::Read(r#""event_id":"$5","room_id":"!r:example.org","type":"m.read","user":"@b:example.org""#, ""),
        Step::Read(r#""event_id":"$4","room_id":"!r:example.org","thread_id":"$3","type":"m.read","user":"@b:example.org""#,
        ""), Step::Counts(OF_B, NONE)] },
    Row { name: "a receipt of the room after a later one of a thread", steps: &[A_JOINS, B_JOINS, HI, IN_3, IN_3, HI,
        Step::Read(r#""event_id":"$5","room_id":"!r:example.org","thread_id":"$3","type":"m.read","user":"@b:example.org""#,
        ""), Step::Counts(OF_B, TWO),
        Step::Read(r#""event_id":"$3","room_id":"!r:example.org","type":"m.read","user":"@b:example.org""#, ""),
        Step::Counts(OF_B, ONE)] },
    Row { name: "a receipt before any unread event", steps: &[A_JOINS, B_JOINS, HI, HI,
        Step::Read(r#""event_id":"$2","room_id":"!r:example.org","type":"m.read","user":"@b:example.org""#, ""),
        Step::Counts(OF_B, TWO)] },
    Row { name: "a later receipt of an earlier event", steps: &[A_JOINS, B_JOINS, HI, HI, HI,
        Step::Read(r#""event_id":"$4","room_id":"!r:example.org","type":"m.read","user":"@b:example.org""#, ""),
        Step::Read(r#""event_id":"$3","room_id":"!r:example.org","type":"m.read","user":"@b:example.org""#, ""),
        Step::Counts(OF_B, ONE)] },
    Row { name: "a receipt of another user", steps: &[A_JOINS, B_JOINS, HI,
        Step::Read(r#""event_id":"$3","room_id":"!r:example.org","type":"m.read","user":"@a:example.org""#, ""),
        Step::Counts(OF_B, ONE)] },
];

#[rattlefmt::skip]
static REFUSED: [Row; 5] = [
    Row { name: "an event of another room", steps: &[A_JOINS, B_JOINS, Step::Event(Told(S, A, MESSAGE, None, "{}")), HI,
        Step::Read(r#""event_id":"$3","room_id":"!r:example.org","type":"m.read","user":"@b:example.org""#, UNKNOWN),
        Step::Counts(OF_B, ONE)] },
    Row { name: "a remote user, before an unknown event", steps: &[A_JOINS,
        Step::Read(r#""event_id":"$zz","room_id":"!r:example.org","type":"m.read","user":"@z:other.org""#,
        "NotLocal")] },
    Row { name: "a user who isn't in the room", steps: &[A_JOINS, HI,
        Step::Read(r#""event_id":"$2","room_id":"!r:example.org","type":"m.read","user":"@b:example.org""#, ""),
        Step::Counts(OF_B, NONE)] },
    Row { name: "an event of a thread as one of the main thread", steps: &[A_JOINS, B_JOINS, HI, IN_3,
        Step::Read(r#""event_id":"$4","room_id":"!r:example.org","thread_id":"main","type":"m.read","user":"@b:example.org""#,
        NOT_IN), Step::Counts(OF_B, ONE_AND_ONE)] },
    Row { name: "a thread that nobody began", steps: &[A_JOINS, B_JOINS, HI,
        Step::Read(r#""event_id":"$3","room_id":"!r:example.org","thread_id":"$zz","type":"m.read","user":"@b:example.org""#,
        NOT_IN), Step::Counts(OF_B, ONE)] },
];

#[rattlefmt::skip]
static MEMBERSHIP: [Row; 5] = [
    Row { name: "an invitation, a join, a leave, a join", steps: &[A_JOINS, A_INVITES_B, Step::Counts(OF_B, ONE),
        B_JOINS, Step::Counts(OF_B, NONE), B_LEAVES, HI, B_JOINS, Step::Counts(OF_B, NONE)] },
    Row { name: "an invitation that is declined", steps: &[A_JOINS, A_INVITES_B, B_LEAVES, Step::Counts(OF_B, NONE)] },
    Row { name: "a name that changes", steps: &[A_JOINS, B_JOINS, HI,
        Step::Event(Told(R, B, MEMBER, Some(B), r#"{"displayname":"Bob","membership":"join"}"#)),
        Step::Counts(OF_B, ONE)] },
    Row { name: "a kick, and a join",
        steps: &[A_JOINS, B_JOINS, HI, A_KICKS_B, Step::Counts(OF_B, NONE), HI, B_JOINS, HI, Step::Counts(OF_B, ONE)] },
    Row { name: "a ban, its end, and a join", steps: &[A_JOINS, B_JOINS, HI, A_BANS_B, Step::Counts(OF_B, NONE),
        A_KICKS_B, HI, B_JOINS, HI, Step::Counts(OF_B, ONE)] },
];

// ---- a late receipt

#[test]
fn a_late_receipt_among_many(rt: HostRuntime) {
    assert!(rt; is_read_late(&rt, rt.alloc()));
}

/// Whether receipts inside 257 unread events leave those behind them, the later one alone.
fn is_read_late(rt: &impl Abort, alloc: Global) -> bool {
    let mut script = Script::new(alloc);
    let mut position = say_step(rt, alloc, &mut script, A_JOINS, 0);
    position = say_step(rt, alloc, &mut script, B_JOINS, position);
    for _ in 0..257 {
        position = say_step(rt, alloc, &mut script, HI, position);
    }
    for step in LATE {
        position = say_step(rt, alloc, &mut script, step, position);
    }
    is_served(rt, alloc, &script, 0)
}

#[rattlefmt::skip]
static LATE: [Step; 6] = [
    Step::Read(r#""event_id":"$102","room_id":"!r:example.org","thread_id":"main","type":"m.read","user":"@b:example.org""#, ""),
    Step::Counts(OF_B, r#"{"highlight_count":0,"notification_count":157,"threads":{}}"#),
    Step::Read(r#""event_id":"$52","room_id":"!r:example.org","type":"m.read","user":"@b:example.org""#, ""),
    Step::Counts(OF_B, r#"{"highlight_count":0,"notification_count":157,"threads":{}}"#),
    Step::Read(r#""event_id":"$259","room_id":"!r:example.org","type":"m.read","user":"@b:example.org""#, ""),
    Step::Counts(OF_B, NONE),
];
