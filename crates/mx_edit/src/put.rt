//! The plan of a put.

ghost use Rattle.std.specs.Prelude.{◌≡◌, true, IfOk};
ghost use Rattle.std.specs.List.{list_all};
ghost use Rattle.mx_json.specs.Json.{is_valid};
ghost use Rattle.mx_edit.specs.Planning.{criterion_in, is_valid_put, put_of, IsPlanOf, Tries};
ghost use Rattle.mx_rule.specs.Editing.{flag_of, put_rule, refusal_of_edit};
ghost use Rattle.mx_rule.specs.Ruleset.{rules_of_kind};

use crate::checks::{check_actions, check_id, check_place};
use crate::criterion::read_criterion;
use crate::error::EditError;
use crate::lists::with_put;
use crate::plan::EditPlan;
use mx_json::{JsonList, JsonText, OutOfMemory};
use mx_rule::{Actions, Criterion, Kind, ListChange, Rule, RuleList, Ruleset};
use std::alloc::Global;

/// A put, as it was asked for.
#[derive(Drop)]
pub(crate) struct Put<'a> {
    pub(crate) kind: Kind,
    pub(crate) id: &'a JsonText,
    pub(crate) pattern: &'a Option<JsonText>,
    pub(crate) conditions: &'a Option<JsonList>,
    pub(crate) actions: &'a JsonList,
    pub(crate) before: &'a Option<JsonText>,
    pub(crate) after: &'a Option<JsonText>,
}

/// Plans a put, or refuses it.
pub(crate) fn plan_put(alloc: Global, rules: &Ruleset, put: &Put<'_>) -> Result<EditPlan, EditError>
    requires { is_valid_put put.now ≡ true }
    ensures { Tries (refusal_of_edit rules.now (put_of put.now))
        (IsPlanOf (put_of put.now) rules.now) result }
{
    let criterion = accepted(alloc, rules, put)?;
    let list = rules.rules(put.kind);
    let rule = rule_of(alloc, list, put, criterion)?;
    let list = with_put(alloc, list, put.kind, rule, put.before, put.after)?;
    let list = RuleList::of(alloc, list)?;
    Ok(EditPlan {
        kind: put.kind,
        change: ListChange::Replace(list),
    })
}

// What the rule asks, where the put isn't refused.
fn accepted(alloc: Global, rules: &Ruleset, put: &Put<'_>) -> Result<Criterion, EditError>
    requires { is_valid_put put.now ≡ true }
    ensures { Tries (refusal_of_edit rules.now (put_of put.now))
        (λ criterion. criterion ≡ criterion_in put.now) result }
{
    let id = put.id.as_str();
    check_id(put.kind, id)?;
    let criterion = read_criterion(alloc, put.kind, put.pattern, put.conditions)?;
    check_actions(put.actions)?;
    check_place(rules, put.kind, id, put.before, put.after)?;
    Ok(criterion)
}

// The rule that the put makes.
fn rule_of(
    alloc: Global,
    rules: &[Rule],
    put: &Put<'_>,
    criterion: Criterion,
) -> Result<Rule, OutOfMemory>
    requires { list_all is_valid put.now.actions.now.items ≡ true }
    ensures { let id = put.now.id.now in IfOk result (λ rule. rule
        ≡ put_rule id (flag_of id rules.now) put.now.actions.now.items criterion) }
{
    let enabled = flag_of(rules, put.id.as_str());
    let id = put.id.copied(alloc)?;
    let actions = Actions::read(alloc, put.actions.copied(alloc)?)?;
    Ok(Rule::new(id, false, enabled, actions, criterion))
}

// A rule that is there keeps its enabled flag; a new one is enabled.
#[tactic(auto, using(crate::proofs::StepLemmas::flag_step))]
fn flag_of(rules: &[Rule], id: &str) -> bool
    ensures { result ≡ flag_of id.now rules.now }
{
    for rule in rules {
        if rule.id() == id {
            return rule.enabled();
        }
    }
    true
}
