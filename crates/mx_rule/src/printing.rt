ghost use Rattle.std.specs.Prelude.{◌≡◌, ◌++◌, true, OnOk, OnErr};
ghost use Rattle.std.specs.List.{list_all};
ghost use Rattle.mx_json.specs.Canonical.{canonical};
ghost use Rattle.mx_json.specs.Json.{is_valid};
ghost use Rattle.mx_json.specs.declared.value.Json.{List as ListOf, Text, Truth};
ghost use Rattle.mx_rule.specs.Printed.{conditions_text, rules_list, pattern_text, printed};
ghost use Rattle.mx_rule.specs.Printed.{printed_rules};

use crate::criterion::Criterion;
use crate::kind::Kind;
use crate::rule::Rule;
use crate::ruleset::Ruleset;
use mx_cond::Condition;
use mx_json::{Json, JsonText, OutOfMemory};
use std::alloc::Global;

impl Rule {
    /// Appends the rule as canonical JSON: its actions and conditions as they were given,
    /// `conditions` for override and underride rules alone, `pattern` for content rules alone
    /// (Client-Server API v1.11, "Push rules: API"). After an error `out` is as before.
    ///
    /// # Errors
    ///
    /// `OutOfMemory` where the allocator has none.
    pub fn json_into(&self, alloc: Global, out: &mut Vec<u8>) -> Result<(), OutOfMemory>
        ensures ok { OnOk result (out.new.items ≡ out.old.items ++ printed self.now) }
        ensures err { OnErr result (out.new.items ≡ out.old.items) }
    {
        let mut text = Vec::new(alloc);
        write_rule(alloc, self, &mut text)?;
        out.extend_from_slice(text.as_slice())?;
        Ok(())
    }
}

impl Ruleset {
    /// Appends the rules as canonical JSON: an object with a list for each kind, in order of
    /// importance (Client-Server API v1.11, "Push rules: API"). After an error `out` is as before.
    ///
    /// # Errors
    ///
    /// `OutOfMemory` where the allocator has none.
    pub fn json_into(&self, alloc: Global, out: &mut Vec<u8>) -> Result<(), OutOfMemory>
        ensures ok { OnOk result (out.new.items ≡ out.old.items ++ printed_rules self.now) }
        ensures err { OnErr result (out.new.items ≡ out.old.items) }
    {
        let mut text = Vec::new(alloc);
        write_ruleset(alloc, self, &mut text)?;
        out.extend_from_slice(text.as_slice())?;
        Ok(())
    }
}

fn write_ruleset(alloc: Global, rules: &Ruleset, out: &mut Vec<u8>) -> Result<(), OutOfMemory>
    ensures { OnOk result (out.new.items ≡ out.old.items ++ printed_rules rules.now) }
{
    out.push(b'{')?;
    write_list(alloc, b"\"content\":", rules.rules(Kind::Content), out)?;
    write_list(alloc, b",\"override\":", rules.rules(Kind::Override), out)?;
    write_list(alloc, b",\"room\":", rules.rules(Kind::Room), out)?;
    write_list(alloc, b",\"sender\":", rules.rules(Kind::Sender), out)?;
    write_list(alloc, b",\"underride\":", rules.rules(Kind::Underride), out)?;
    out.push(b'}')?;
    Ok(())
}

fn write_list(
    alloc: Global,
    key: &[u8],
    rules: &[Rule],
    out: &mut Vec<u8>,
) -> Result<(), OutOfMemory>
    ensures { OnOk result
        (out.new.items ≡ out.old.items ++ (key.now ++ canonical (rules_list rules.now))) }
{
    out.extend_from_slice(key)?;
    write_rules(alloc, rules, out)
}

fn write_rules(alloc: Global, rules: &[Rule], out: &mut Vec<u8>) -> Result<(), OutOfMemory>
    ensures { OnOk result (out.new.items ≡ out.old.items ++ canonical (rules_list rules.now)) }
{
    out.push(b'[')?;
    let mut separator: &[u8] = b"";
    for rule in rules {
        out.extend_from_slice(separator)?;
        write_rule(alloc, rule, out)?;
        separator = b",";
    }
    out.push(b']')?;
    Ok(())
}

fn write_rule(alloc: Global, rule: &Rule, out: &mut Vec<u8>) -> Result<(), OutOfMemory>
    ensures { OnOk result (out.new.items ≡ out.old.items ++ printed rule.now) }
{
    out.extend_from_slice(b"{\"actions\":")?;
    write_actions(alloc, rule.given_actions(), out)?;
    write_criterion_conditions(alloc, rule.criterion(), out)?;
    write_truth(b",\"default\":", rule.predefined(), out)?;
    write_truth(b",\"enabled\":", rule.enabled(), out)?;
    write_criterion_pattern(alloc, rule.criterion(), out)?;
    out.extend_from_slice(b",\"rule_id\":")?;
    write_text(alloc, rule.id(), out)?;
    out.push(b'}')?;
    Ok(())
}

fn write_criterion_conditions(
    alloc: Global,
    criterion: &Criterion,
    out: &mut Vec<u8>,
) -> Result<(), OutOfMemory>
    ensures { OnOk result (out.new.items ≡ out.old.items ++ conditions_text criterion.now) }
{
    if let Criterion::Conditions(conditions) = criterion {
        out.extend_from_slice(b",\"conditions\":")?;
        write_conditions(alloc, conditions.as_slice(), out)?;
    }
    Ok(())
}

fn write_criterion_pattern(
    alloc: Global,
    criterion: &Criterion,
    out: &mut Vec<u8>,
) -> Result<(), OutOfMemory>
    ensures { OnOk result (out.new.items ≡ out.old.items ++ pattern_text criterion.now) }
{
    if let Criterion::Word(pattern) = criterion {
        out.extend_from_slice(b",\"pattern\":")?;
        write_text(alloc, pattern.as_str(), out)?;
    }
    Ok(())
}

fn write_actions(alloc: Global, actions: &[Json], out: &mut Vec<u8>) -> Result<(), OutOfMemory>
    requires { list_all is_valid actions.now ≡ true }
    ensures { OnOk result
        (out.new.items ≡ out.old.items ++ canonical (ListOf record { items = actions.now })) }
{
    out.push(b'[')?;
    let mut separator: &[u8] = b"";
    for action in actions {
        out.extend_from_slice(separator)?;
        action.canonical_into(alloc, out)?;
        separator = b",";
    }
    out.push(b']')?;
    Ok(())
}

fn write_conditions(
    alloc: Global,
    conditions: &[Condition],
    out: &mut Vec<u8>,
) -> Result<(), OutOfMemory>
    ensures { OnOk result
        (out.new.items ≡ out.old.items ++ canonical (ListOf record { items = conditions.now })) }
{
    out.push(b'[')?;
    let mut separator: &[u8] = b"";
    for condition in conditions {
        out.extend_from_slice(separator)?;
        condition.json().canonical_into(alloc, out)?;
        separator = b",";
    }
    out.push(b']')?;
    Ok(())
}

fn write_truth(key: &[u8], truth: bool, out: &mut Vec<u8>) -> Result<(), OutOfMemory>
    ensures { OnOk result (out.new.items ≡ out.old.items ++ (key.now ++ canonical (Truth truth))) }
{
    out.extend_from_slice(key)?;
    if truth {
        out.extend_from_slice(b"true")?;
    } else {
        out.extend_from_slice(b"false")?;
    }
    Ok(())
}

fn write_text(alloc: Global, text: &str, out: &mut Vec<u8>) -> Result<(), OutOfMemory>
    ensures { OnOk result (out.new.items ≡ out.old.items ++ canonical (Text text.now)) }
{
    Json::Text(JsonText::read(alloc, text)?).canonical_into(alloc, out)
}
