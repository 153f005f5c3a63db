//! Edits of push rules: what they are refused for, what they make of the rules, and by which rules
//! an event is judged. Tables of rows, each told through `serve`; the user is `@b:example.org`.

use super::fixtures::{Script, is_served};
use mx_vectors::printed_predefined_rules;
use std::alloc::Global;
use std::process::Abort;

/// A line: what follows `{"cmd":"rule_` and stands before the user, and what is told after
/// `"error":` where it is refused, else nothing.
#[derive(Clone, Copy)]
struct Edit(&'static str, &'static str);

/// Edits, and the rules that the user made after them, kind by kind: override, content, room,
/// sender, underride; with a blank between each two, and `-` before those that are disabled.
struct Row {
    name: &'static str,
    edits: &'static [Edit],
    own: [&'static str; 5],
}

#[test]
fn rules_stand_where_they_are_put(rt: HostRuntime) {
    assert_eq!(rt; wrong_row(&rt, rt.alloc(), &PLACES), "");
}

#[test]
fn rules_of_each_kind(rt: HostRuntime) {
    assert_eq!(rt; wrong_row(&rt, rt.alloc(), &KINDS), "");
}

#[test]
fn anchors_that_are_none(rt: HostRuntime) {
    assert_eq!(rt; wrong_row(&rt, rt.alloc(), &ANCHORS), "");
}

/// The name of the first row whose replies are others; empty where there is none.
fn wrong_row(rt: &impl Abort, alloc: Global, rows: &[Row]) -> &'static str {
    for row in rows {
        if !is_answered(rt, alloc, row) {
            return row.name;
        }
    }
    ""
}

fn is_answered(rt: &impl Abort, alloc: Global, row: &Row) -> bool {
    let mut script = Script::new(alloc);
    let mut position = 0;
    for edit in row.edits {
        position = say_edit(rt, alloc, &mut script, edit.0, edit.1, position);
    }
    say_rules(rt, alloc, &mut script, &row.own);
    is_served(rt, alloc, &script, 0)
}

/// Says an edit after so many accepted inputs, and answers how many there are then.
pub(super) fn say_edit(
    rt: &impl Abort,
    alloc: Global,
    script: &mut Script,
    fields: &str,
    refusal: &str,
    position: u32,
) -> u32 {
    let line = edit_line(rt, alloc, fields);
    if refusal.is_empty() {
        let next = position.saturating_add(1);
        say_accepted(rt, alloc, script, line.as_str(), next);
        return next;
    }
    let reply = format!(in alloc; r#"= {{"error":{refusal}}}"#).expect(rt, refusal);
    script.say(rt, line.as_bytes(), reply.as_str());
    position
}

pub(super) fn edit_line(rt: &impl Abort, alloc: Global, fields: &str) -> String {
    format!(in alloc; r#"{{"cmd":"rule_{fields},"user":"@b:example.org"}}"#).expect(rt, fields)
}

pub(super) fn say_accepted(
    rt: &impl Abort,
    alloc: Global,
    script: &mut Script,
    line: &str,
    position: u32,
) {
    let reply = format!(in alloc; r#"= {{"ok":{position}}}"#).expect(rt, line);
    script.say(rt, line.as_bytes(), reply.as_str());
}

// ---- the reply to `rules`

pub(super) fn say_rules(rt: &impl Abort, alloc: Global, script: &mut Script, own: &[&str; 5]) {
    let reply = rules_reply(rt, alloc, own);
    script.say(
        rt,
        br#"{"cmd":"rules","user":"@b:example.org"}"#,
        reply.as_str(),
    );
}

/// The reply to `rules` of a user who made these rules, and changed no predefined one.
fn rules_reply(rt: &impl Abort, alloc: Global, own: &[&str; 5]) -> String {
    let table = printed_predefined_rules();
    let (master, others) = table
        .override_
        .split_once('\n')
        .expect(rt, "the master rule");
    let mut reply = String::from_str(alloc, r#"= {"content":"#).expect(rt, "a reply");
    print_list(rt, &mut reply, own[1], "", table.content, Asks::Pattern);
    print_text(rt, &mut reply, r#","override":"#);
    print_list(rt, &mut reply, own[0], master, others, Asks::Conditions);
    print_text(rt, &mut reply, r#","room":"#);
    print_list(rt, &mut reply, own[2], "", "", Asks::Nothing);
    print_text(rt, &mut reply, r#","sender":"#);
    print_list(rt, &mut reply, own[3], "", "", Asks::Nothing);
    print_text(rt, &mut reply, r#","underride":"#);
    print_list(
        rt,
        &mut reply,
        own[4],
        "",
        table.underride,
        Asks::Conditions,
    );
    print_text(rt, &mut reply, "}");
    reply
}

/// What the rules of a list ask.
#[derive(Clone, Copy)]
enum Asks {
    Conditions,
    Pattern,
    Nothing,
}

impl Asks {
    fn conditions(self) -> &'static str {
        match self {
            Asks::Conditions => r#""conditions":[],"#,
            _ => "",
        }
    }

    fn pattern(self) -> &'static str {
        match self {
            Asks::Pattern => r#""pattern":"cake","#,
            _ => "",
        }
    }
}

/// Prints a list: of a kind's own rules, of the lines of the rules before them,
/// and of those after them.
fn print_list(rt: &impl Abort, out: &mut String, own: &str, before: &str, after: &str, asks: Asks) {
    print_text(rt, out, "[");
    let mut printed = print_lines(rt, out, before, 0);
    for id in own.split(' ') {
        if !id.is_empty() {
            print_text(rt, out, separator(printed));
            print_own(rt, out, id, asks);
            printed = printed.saturating_add(1);
        }
    }
    print_lines(rt, out, after, printed);
    print_text(rt, out, "]");
}

/// Prints these lines after so many members of a list, and answers how many there are then.
fn print_lines(rt: &impl Abort, out: &mut String, lines: &str, printed: u32) -> u32 {
    let mut printed = printed;
    for line in lines.split('\n') {
        if !line.is_empty() {
            print_text(rt, out, separator(printed));
            print_text(rt, out, line);
            printed = printed.saturating_add(1);
        }
    }
    printed
}

/// What stands before the next member of a list that has so many.
fn separator(printed: u32) -> &'static str {
    if printed == 0 { "" } else { "," }
}

fn print_own(rt: &impl Abort, out: &mut String, id: &str, asks: Asks) {
    match id.strip_prefix('-') {
        Some(id) => print_rule(rt, out, id, "false", asks),
        None => print_rule(rt, out, id, "true", asks),
    }
}

fn print_rule(rt: &impl Abort, out: &mut String, id: &str, enabled: &str, asks: Asks) {
    print_text(rt, out, r#"{"actions":[],"#);
    print_text(rt, out, asks.conditions());
    print_text(rt, out, r#""default":false,"enabled":"#);
    print_text(rt, out, enabled);
    print_text(rt, out, ",");
    print_text(rt, out, asks.pattern());
    print_text(rt, out, r#""rule_id":""#);
    print_text(rt, out, id);
    print_text(rt, out, r#""}"#);
}

fn print_text(rt: &impl Abort, out: &mut String, text: &str) {
    out.push_str(text).expect(rt, text);
}

// ---- the rows

const X: Edit = Edit(r#"put","actions":[],"kind":"override","rule_id":"x""#, "");

const Y: Edit = Edit(r#"put","actions":[],"kind":"override","rule_id":"y""#, "");

#[rattlefmt::skip]
static PLACES: [Row; 7] = [
    Row { name: "a new rule is the first of the user's", edits: &[X, Y], own: ["y x", "", "", "", ""] },
    Row { name: "rule order and anchors",
        edits: &[X, Y, Edit(r#"put","actions":[],"before":"x","kind":"override","rule_id":"z""#, "")],
        own: ["y z x", "", "", "", ""] },
    Row { name: "after an anchor",
        edits: &[X, Y, Edit(r#"put","actions":[],"after":"x","kind":"override","rule_id":"z""#, "")],
        own: ["y x z", "", "", "", ""] },
    Row { name: "before decides over after",
        edits: &[X, Y, Edit(r#"put","actions":[],"after":"x","before":"y","kind":"override","rule_id":"z""#, "")],
        own: ["z y x", "", "", "", ""] },
    Row { name: "put again with other conditions, it keeps its place and its flag",
        edits: &[Edit(r#"put","actions":["notify"],"conditions":[{"kind":"contains_display_name"}],"kind":"override","rule_id":"x""#,
            ""), Y, Edit(r#"enable","enabled":false,"kind":"override","rule_id":"x""#, ""), X],
        own: ["y -x", "", "", "", ""] },
    Row { name: "put again after an anchor, it moves",
        edits: &[X, Y, Edit(r#"put","actions":[],"after":"x","kind":"override","rule_id":"y""#, "")],
        own: ["x y", "", "", "", ""] },
    Row { name: "deleted and put again, it is new",
        edits: &[X, Y, Edit(r#"delete","kind":"override","rule_id":"x""#, ""), X],
        own: ["x y", "", "", "", ""] },
];

#[rattlefmt::skip]
static KINDS: [Row; 6] = [
    Row { name: "no edit", edits: &[], own: ["", "", "", "", ""] },
    Row { name: "a content rule, whose conditions are ignored",
        edits: &[Edit(r#"put","actions":[],"conditions":[7],"kind":"content","pattern":"cake","rule_id":"c""#, "")],
        own: ["", "c", "", "", ""] },
    Row { name: "a room rule, whose pattern is ignored",
        edits: &[Edit(r#"put","actions":[],"kind":"room","pattern":"*","rule_id":"!r:example.org""#, "")],
        own: ["", "", "!r:example.org", "", ""] },
    Row { name: "a sender rule", edits: &[Edit(r#"put","actions":[],"kind":"sender","rule_id":"@a:example.org""#, ""),
        Edit(r#"enable","enabled":false,"kind":"sender","rule_id":"@a:example.org""#, "")],
        own: ["", "", "", "-@a:example.org", ""] },
    Row { name: "one id in two kinds", edits: &[X, Edit(r#"put","actions":[],"kind":"underride","rule_id":"x""#, ""),
        Edit(r#"enable","enabled":false,"kind":"underride","rule_id":"x""#, "")], own: ["x", "", "", "", "-x"] },
    Row { name: "a deleted rule of another kind stays",
        edits: &[X, Edit(r#"put","actions":[],"kind":"underride","rule_id":"x""#, ""),
        Edit(r#"delete","kind":"override","rule_id":"x""#, "")], own: ["", "", "", "", "x"] },
];

#[rattlefmt::skip]
static ANCHORS: [Row; 7] = [
    Row { name: "before a predefined rule",
        edits: &[Edit(r#"put","actions":[],"before":".m.rule.master","kind":"override","rule_id":"w""#,
        r#""AnchorUnknown""#)], own: ["", "", "", "", ""] },
    Row { name: "before itself",
        edits: &[X, Edit(r#"put","actions":[],"before":"x","kind":"override","rule_id":"x""#, r#""AnchorUnknown""#)],
        own: ["x", "", "", "", ""] },
    Row { name: "after itself", edits: &[X,
        Edit(r#"put","actions":["notify"],"after":"x","kind":"override","rule_id":"x""#, r#""AnchorUnknown""#)],
        own: ["x", "", "", "", ""] },
    Row { name: "before a rule of another kind",
        edits: &[X, Edit(r#"put","actions":[],"before":"x","kind":"underride","rule_id":"y""#, r#""AnchorUnknown""#)],
        own: ["x", "", "", "", ""] },
    Row { name: "before an unknown rule, after a known one", edits: &[X,
        Edit(r#"put","actions":[],"after":"x","before":"q","kind":"override","rule_id":"y""#, r#""AnchorUnknown""#)],
        own: ["x", "", "", "", ""] },
    Row { name: "after an unknown rule",
        edits: &[Edit(r#"put","actions":[],"after":"q","kind":"override","rule_id":"y""#, r#""AnchorUnknown""#)],
        own: ["", "", "", "", ""] },
    Row { name: "before a rule, after an unknown one",
        edits: &[X, Edit(r#"put","actions":[],"after":"q","before":"x","kind":"override","rule_id":"y""#, "")],
        own: ["y x", "", "", "", ""] },
];
