ghost use Rattle.std.specs.Prelude.{◌≡◌, true, map, IfOk, IsSome};
ghost use Rattle.std.specs.List.{list_all};
ghost use Rattle.mx_json.specs.Ids.{localpart_of};
ghost use Rattle.mx_rule.specs.Predefined.{content_table, localpart_rule, override_table};
ghost use Rattle.mx_rule.specs.Predefined.{predefined_rules, underride_table};
ghost use Rattle.mx_defaults.specs.Row.{actions_of, are_sayable, condition_of, conditions_asked};
ghost use Rattle.mx_defaults.specs.Row.{is_readable, is_readable_row, is_pattern_text, rule_of};

use crate::row::{Asked, Does, Row};
use crate::table::{CONTENT_DOES, CONTENT_ID, OVERRIDE, UNDERRIDE};
use crate::values::{actions_of, condition_of};
use mx_cond::{Condition, ConditionError};
use mx_glob::GlobError;
use mx_json::{JsonText, OutOfMemory, UserId};
use mx_rule::{Actions, Criterion, Pattern, Rule, RuleList, Ruleset};
use sqlite_items::Items;
use std::alloc::Global;

/// The predefined rules of a local user of this server.
///
/// # Errors
///
/// `OutOfMemory` where the allocator has none.
pub fn predefined(alloc: Global, user: &UserId, server: &str) -> Result<Ruleset, OutOfMemory>
    requires { IsSome (localpart_of server.now user.now) }
    ensures { IfOk result (λ rules. rules ≡ predefined_rules server.now user.now) }
{
    let Some(localpart) = user.localpart_on(server) else {
        unreachable!()
    };
    Ok(Ruleset::of(
        override_rules(alloc, user.as_text())?,
        content_rules(alloc, localpart)?,
        RuleList::of(alloc, Vec::new(alloc))?,
        RuleList::of(alloc, Vec::new(alloc))?,
        underride_rules(alloc, user.as_text())?,
    ))
}

fn override_rules(alloc: Global, owner: &str) -> Result<RuleList, OutOfMemory>
    requires { is_pattern_text owner.now ≡ true }
    ensures { IfOk result (λ rules. rules ≡ override_table owner.now) }
{
    RuleList::of(alloc, rules_of(alloc, owner, &OVERRIDE)?)
}

fn underride_rules(alloc: Global, owner: &str) -> Result<RuleList, OutOfMemory>
    ensures { IfOk result (λ rules. rules ≡ underride_table) }
{
    RuleList::of(alloc, rules_of(alloc, owner, &UNDERRIDE)?)
}

fn rules_of(alloc: Global, owner: &str, rows: &[Row]) -> Result<Vec<Rule>, OutOfMemory>
    requires { list_all (is_readable_row owner.now) rows.now ≡ true }
    ensures { IfOk result (λ rules. rules.items ≡ map (rule_of owner.now) rows.now) }
{
    let mut rules = Vec::with_capacity(alloc, rows.len())?;
    for row in rows {
        rules.push(rule_of(alloc, owner, row)?)?;
    }
    Ok(rules)
}

fn rule_of(alloc: Global, owner: &str, row: &Row) -> Result<Rule, OutOfMemory>
    requires { is_readable_row owner.now row.now ≡ true }
    ensures { IfOk result (λ rule. rule ≡ rule_of owner.now row.now) }
{
    Ok(Rule::new(
        JsonText::read(alloc, row.id)?,
        true,
        row.enabled,
        read_actions(alloc, row.does)?,
        Criterion::Conditions(conditions_asked(alloc, owner, row.asks)?),
    ))
}

fn conditions_asked(
    alloc: Global,
    owner: &str,
    asks: &[Asked],
) -> Result<Items<Condition>, OutOfMemory>
    requires { list_all (is_readable owner.now) asks.now ≡ true }
    ensures { IfOk result (λ conditions. conditions ≡ conditions_asked owner.now asks.now) }
{
    let mut conditions = Vec::with_capacity(alloc, asks.len())?;
    for asked in asks {
        conditions.push(read_condition(alloc, owner, asked)?)?;
    }
    Ok(Items::from_vec(conditions))
}

fn read_condition(alloc: Global, owner: &str, asked: &Asked) -> Result<Condition, OutOfMemory>
    requires { is_readable owner.now asked.now ≡ true }
    ensures { IfOk result (λ condition. condition ≡ condition_of owner.now asked.now) }
{
    let json = condition_of(alloc, owner, asked)?;
    match Condition::read(alloc, json) {
        Ok(condition) => Ok(condition),
        Err(ConditionError::OutOfMemory) => Err(OutOfMemory),
        Err(ConditionError::BadCondition) => unreachable!(),
    }
}

fn read_actions(alloc: Global, does: &[Does]) -> Result<Actions, OutOfMemory>
    requires { are_sayable does.now ≡ true }
    ensures { IfOk result (λ actions. actions ≡ actions_of does.now) }
{
    Actions::read(alloc, actions_of(alloc, does)?)
}

fn content_rules(alloc: Global, localpart: &str) -> Result<RuleList, OutOfMemory>
    requires { is_pattern_text localpart.now ≡ true }
    ensures { IfOk result (λ rules. rules ≡ content_table localpart.now) }
{
    let rule = localpart_rule(alloc, localpart)?;
    RuleList::of(alloc, vec![in alloc; rule]?)
}

fn localpart_rule(alloc: Global, localpart: &str) -> Result<Rule, OutOfMemory>
    requires { is_pattern_text localpart.now ≡ true }
    ensures { IfOk result (λ rule. rule ≡ localpart_rule localpart.now) }
{
    Ok(Rule::new(
        JsonText::read(alloc, CONTENT_ID)?,
        true,
        true,
        read_actions(alloc, &CONTENT_DOES)?,
        Criterion::Word(read_pattern(alloc, localpart)?),
    ))
}

fn read_pattern(alloc: Global, localpart: &str) -> Result<Pattern, OutOfMemory>
    requires { is_pattern_text localpart.now ≡ true }
    ensures { IfOk result (λ pattern. pattern ≡ localpart.now) }
{
    match Pattern::read(alloc, localpart) {
        Ok(pattern) => Ok(pattern),
        Err(GlobError::OutOfMemory) => Err(OutOfMemory),
        Err(GlobError::PatternTooLong) => unreachable!(),
    }
}
