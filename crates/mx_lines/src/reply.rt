ghost use Rattle.std.specs.Prelude.{◌≡◌, ◌≤◌, ◌++◌, [], ◌∷◌, true, codes, take, vec_len, IfOk};
ghost use Rattle.std.specs.Prelude.{OnOk, OnErr};
ghost use Rattle.mx_json.specs.Json.{is_valid, largest_whole};
ghost use Rattle.mx_records.specs.History.{History};
ghost use Rattle.mx_records.specs.Refusing.{NamesAPosition};
ghost use Rattle.mx_json.specs.Ids.{is_local};
ghost use Rattle.mx_records.specs.Snapshot.{snapshot_of};
ghost use Rattle.mx_rule.specs.Predefined.{predefined_rules};
ghost use Rattle.mx_rule.specs.Printed.{rules_object};
ghost use Rattle.mx_lines.specs.Lines.{with_feed};
ghost use Rattle.mx_lines.specs.Replies.{reply_text, number_of, error_value, ok_value};
ghost use Rattle.mx_lines.specs.Replies.{line_refusal_value, refusal_value, denied_value};
ghost use Rattle.mx_lines.specs.Replies.{NamesInRange};
ghost use Rattle.mx_lines.specs.Admission.{reply_to, IsQuestion};

use crate::command::{Command, Denial, LineRefusal};
use counts::{by_thread, counts_value};
use mx_defaults::predefined;
use mx_json::{Json, JsonObject, JsonText, OutOfMemory, RoomId, UserId};
use mx_records::{FieldName, MOST_INPUTS, Questions, Refusal};
use mx_rule::Ruleset;
use std::alloc::Global;

mod counts;
#[cfg(test)]
mod tests;

/// How many rules a user may make.
const MOST_RULES: u64 = 1_000;

/// Appends the reply to an input that was accepted at this position (from 1), with its line feed.
/// After an error `out` is as before.
///
/// # Errors
///
/// `OutOfMemory` where the allocator has none.
pub fn ok_into(alloc: Global, position: u64, out: &mut Vec<u8>) -> Result<(), OutOfMemory>
    requires { position ≤ largest_whole }
    ensures text { OnOk result
        (out.new.items ≡ out.old.items ++ with_feed (reply_text (ok_value position))) }
    ensures err { OnErr result (out.new.items ≡ out.old.items) }
{
    value_into(alloc, &ok_value(alloc, position)?, out)
}

/// Appends the reply to a line that was refused, with its line feed. After an error `out` is as
/// before.
///
/// # Errors
///
/// `OutOfMemory` where the allocator has none.
pub fn denied_into(alloc: Global, denial: &Denial, out: &mut Vec<u8>) -> Result<(), OutOfMemory>
    requires { NamesInRange denial.now }
    ensures text { OnOk result
        (out.new.items ≡ out.old.items ++ with_feed (reply_text (denied_value denial.now))) }
    ensures err { OnErr result (out.new.items ≡ out.old.items) }
{
    value_into(alloc, &denied_value(alloc, denial)?, out)
}

/// Appends the reply to a question of a local user of this server, with its line feed. After an
/// error `out` is as before.
///
/// # Errors
///
/// `OutOfMemory` where the allocator has none.
#[tactic(auto, using(crate::proofs::OwnRulesLemmas::edited_reply, crate::proofs::OwnRulesLemmas::predefined_reply))]
pub fn reply_into<Q: Questions>(
    alloc: Global,
    questions: &Q,
    server: &str,
    command: &Command,
    out: &mut Vec<u8>,
) -> Result<(), OutOfMemory>
    requires question { IsQuestion (Q.server questions.now) command.now }
    requires server { server.now ≡ Q.server questions.now }
    ensures text { (h : History) → Q.snapshot questions.now ≡ snapshot_of (Q.server questions.now) h
        → OnOk result (out.new.items ≡ out.old.items
        ++ with_feed (reply_text (reply_to (Q.server questions.now) h command.now))) }
    ensures err { OnErr result (out.new.items ≡ out.old.items) }
{
    match command {
        Command::Counts {
            user,
            room,
            threads,
        } => counts_into(alloc, questions, user, room, *threads, out),
        Command::Rules { user } => match questions.rules(user) {
            Some(rules) => rules_into(alloc, rules, out),
            None => predefined_into(alloc, user, server, out),
        },
        Command::Input(_) => unreachable!(),
    }
}

/// Appends the reply with the predefined rules of a local user. After an error `out` is as before.
fn predefined_into(
    alloc: Global,
    user: &UserId,
    server: &str,
    out: &mut Vec<u8>,
) -> Result<(), OutOfMemory>
    requires { is_local server.now user.now ≡ true }
    ensures text { OnOk result (out.new.items ≡ out.old.items
        ++ with_feed (reply_text (rules_object (predefined_rules server.now user.now)))) }
    ensures err { OnErr result (out.new.items ≡ out.old.items) }
{
    rules_into(alloc, &predefined(alloc, user, server)?, out)
}

/// Appends the reply with these rules. After an error `out` is as before.
fn rules_into(alloc: Global, rules: &Ruleset, out: &mut Vec<u8>) -> Result<(), OutOfMemory>
    ensures text { OnOk result
        (out.new.items ≡ out.old.items ++ with_feed (reply_text (rules_object rules.now))) }
    ensures err { OnErr result (out.new.items ≡ out.old.items) }
{
    let length = out.len();
    let written = append_rules(alloc, rules, out);
    if written.is_err() {
        out.truncate(length);
    }
    written
}

/// Appends the same, or with an error a part of it.
#[tactic(auto, unfolding(crate::specs::Replies::reply_text, mx_rule::specs::Printed::printed_rules))]
fn append_rules(alloc: Global, rules: &Ruleset, out: &mut Vec<u8>) -> Result<(), OutOfMemory>
    ensures text { OnOk result
        (out.new.items ≡ out.old.items ++ with_feed (reply_text (rules_object rules.now))) }
    ensures front { take (vec_len out.old) out.new.items ≡ out.old.items }
{
    out.extend_from_slice(b"= ")?;
    rules.json_into(alloc, out)?;
    out.push(b'\n')?;
    Ok(())
}

/// Appends the reply with the counts of a room. After an error `out` is as before.
fn counts_into<Q: Questions>(
    alloc: Global,
    questions: &Q,
    user: &UserId,
    room: &RoomId,
    threads: bool,
    out: &mut Vec<u8>,
) -> Result<(), OutOfMemory>
    ensures text { (h : History) → Q.snapshot questions.now ≡ snapshot_of (Q.server questions.now) h
        → OnOk result (out.new.items ≡ out.old.items ++ with_feed (reply_text
        (reply_to (Q.server questions.now) h (Command.Counts user.now room.now threads)))) }
    ensures err { OnErr result (out.new.items ≡ out.old.items) }
{
    if threads {
        value_into(alloc, &by_thread(alloc, questions, user, room)?, out)
    } else {
        value_into(
            alloc,
            &counts_value(alloc, questions.room_counts(user, room))?,
            out,
        )
    }
}

/// Appends `= `, the canonical text of a valid value and a line feed. After an error `out` is as
/// before.
fn value_into(alloc: Global, value: &Json, out: &mut Vec<u8>) -> Result<(), OutOfMemory>
    requires { is_valid value.now ≡ true }
    ensures text { OnOk result (out.new.items ≡ out.old.items ++ with_feed (reply_text value.now)) }
    ensures err { OnErr result (out.new.items ≡ out.old.items) }
{
    let length = out.len();
    let written = append_value(alloc, value, out);
    if written.is_err() {
        out.truncate(length);
    }
    written
}

/// Appends the same, or with an error a part of it.
#[tactic(auto, unfolding(crate::specs::Replies::reply_text))]
fn append_value(alloc: Global, value: &Json, out: &mut Vec<u8>) -> Result<(), OutOfMemory>
    requires { is_valid value.now ≡ true }
    ensures text { OnOk result (out.new.items ≡ out.old.items ++ with_feed (reply_text value.now)) }
    ensures front { take (vec_len out.old) out.new.items ≡ out.old.items }
{
    out.extend_from_slice(b"= ")?;
    value.canonical_into(alloc, out)?;
    out.push(b'\n')?;
    Ok(())
}

/// A whole number that JSON can hold.
pub(crate) fn number(n: u64) -> Json
    requires { n ≤ largest_whole }
    ensures { result ≡ number_of n }
{
    Json::Whole(n as i64)
}

#[tactic(auto, unfolding(crate::specs::Replies::ok_value))]
fn ok_value(alloc: Global, position: u64) -> Result<Json, OutOfMemory>
    requires { position ≤ largest_whole }
    ensures { IfOk result (λ value. value ≡ ok_value position) }
{
    let members = JsonObject::new(alloc).with(alloc, "ok", number(position))?;
    Ok(Json::Object(members))
}

#[tactic(auto, unfolding(crate::specs::Replies::denied_value))]
fn denied_value(alloc: Global, denial: &Denial) -> Result<Json, OutOfMemory>
    requires { NamesInRange denial.now }
    ensures { IfOk result (λ value. value ≡ denied_value denial.now) }
{
    match denial {
        Denial::TooLong => error_value(alloc, "LineTooLong"),
        Denial::Line(refusal) => line_refusal_value(alloc, refusal),
        Denial::Input(refusal) => refusal_value(alloc, refusal),
    }
}

fn line_refusal_value(alloc: Global, refusal: &LineRefusal) -> Result<Json, OutOfMemory>
    ensures { IfOk result (λ value. value ≡ line_refusal_value refusal.now) }
{
    match refusal {
        LineRefusal::BadLine => error_value(alloc, "BadLine"),
        LineRefusal::NotWhole => error_value(alloc, "NotWhole"),
        LineRefusal::BadField(field) => {
            let field = Json::Text(JsonText::read(alloc, field.name())?);
            error_beside(alloc, "BadField", "field", field)
        }
        LineRefusal::NotBuilt => error_value(alloc, "NotBuilt"),
    }
}

fn refusal_value(alloc: Global, refusal: &Refusal) -> Result<Json, OutOfMemory>
    requires { NamesAPosition refusal.now }
    ensures { IfOk result (λ value. value ≡ refusal_value refusal.now) }
{
    match refusal {
        Refusal::NotLocal => error_value(alloc, "NotLocal"),
        Refusal::KnownEvent(position) => {
            error_beside(alloc, "KnownEvent", "position", number(*position))
        }
        Refusal::UnknownEvent => error_value(alloc, "UnknownEvent"),
        Refusal::NotInThread => error_value(alloc, "NotInThread"),
        Refusal::RuleReserved => error_value(alloc, "RuleReserved"),
        Refusal::BadRule(part) => {
            let part = Json::Text(JsonText::read(alloc, FieldName::of_part(*part).name())?);
            error_beside(alloc, "BadRule", "part", part)
        }
        Refusal::RuleUnknown => error_value(alloc, "RuleUnknown"),
        Refusal::AnchorUnknown => error_value(alloc, "AnchorUnknown"),
        Refusal::RulesFull => error_beside(alloc, "RulesFull", "limit", number(MOST_RULES)),
        Refusal::EntryTooLong => error_value(alloc, "EntryTooLong"),
        Refusal::Full => error_beside(alloc, "Full", "limit", number(MOST_INPUTS)),
    }
}

/// A refusal of this name.
fn error_value(alloc: Global, name: &str) -> Result<Json, OutOfMemory>
    ensures { IfOk result (λ value. value ≡ error_value name.now []) }
{
    let members = error_members(alloc, name)?;
    Ok(Json::Object(members))
}

/// A refusal of this name, with one more member beside it.
fn error_beside(alloc: Global, name: &str, key: &str, more: Json) -> Result<Json, OutOfMemory>
    ensures { IfOk result (λ value. value ≡ error_value name.now ((key.now, more) ∷ [])) }
{
    let members = error_members(alloc, name)?.with(alloc, key, more)?;
    Ok(Json::Object(members))
}

fn error_members(alloc: Global, name: &str) -> Result<JsonObject, OutOfMemory>
    ensures { IfOk result (λ members. members.pairs ≡ (codes "error", Json.Text name.now) ∷ []) }
{
    let name = Json::Text(JsonText::read(alloc, name)?);
    JsonObject::new(alloc).with(alloc, "error", name)
}
