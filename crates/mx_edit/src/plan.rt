ghost use Rattle.std.specs.Prelude.{◌≡◌, true, IfOk, MatchResult};
ghost use Rattle.std.specs.List.{list_all};
ghost use Rattle.mx_json.specs.Json.{is_valid};
ghost use Rattle.mx_edit.specs.Planning.{is_made_for, planned, IsPlanOf, Tells, Tries};
ghost use Rattle.mx_rule.specs.Editing.{is_valid_edit, refusal_of_edit};

use crate::checks::{check_actions, is_reserved, place_of};
use crate::error::EditError;
use crate::put::{Put, plan_put};
use mx_json::JsonList;
use mx_rule::{Actions, Edit, EditRefusal, Kind, ListChange, Ruleset};
use std::alloc::Global;

/// What an edit changes, with all memory that this needs. That of a put holds the changed rules of
/// its kind whole.
#[derive(Drop)]
pub struct EditPlan {
    pub(crate) kind: Kind,
    pub(crate) change: ListChange,
}

/// Plans an edit of these rules, or refuses it.
///
/// # Errors
///
/// `Refused` with the first that applies: `RuleReserved`, `BadRule`, `RuleUnknown`,
/// `AnchorUnknown`, `RulesFull`. `OutOfMemory` where the allocator has none.
pub fn prepare(alloc: Global, rules: &Ruleset, edit: &Edit) -> Result<EditPlan, EditError>
    requires { is_valid_edit edit.now ≡ true }
    ensures refused { MatchResult result (λ _. refusal_of_edit rules.now edit.now ≡ None)
        (Tells (refusal_of_edit rules.now edit.now)) }
    ensures planned { IfOk result (IsPlanOf edit.now rules.now) }
{
    match edit {
        Edit::Put {
            kind,
            rule_id,
            pattern,
            conditions,
            actions,
            before,
            after,
        } => {
            let put = Put {
                kind: *kind,
                id: rule_id,
                pattern,
                conditions,
                actions,
                before,
                after,
            };
            plan_put(alloc, rules, &put)
        }
        Edit::Delete { kind, rule_id } => plan_delete(rules, *kind, rule_id.as_str()),
        Edit::Enable {
            kind,
            rule_id,
            enabled,
        } => plan_enable(rules, *kind, rule_id.as_str(), *enabled),
        Edit::SetActions {
            kind,
            rule_id,
            actions,
        } => plan_actions(alloc, rules, *kind, rule_id.as_str(), actions),
    }
}

fn plan_delete(rules: &Ruleset, kind: Kind, id: &str) -> Result<EditPlan, EditError>
    ensures { Tries (refusal_of_edit rules.now (Edit.Delete kind id.now))
        (IsPlanOf (Edit.Delete kind id.now) rules.now) result }
{
    if is_reserved(id) {
        return Err(EditError::Refused(EditRefusal::RuleReserved));
    }
    let index = place_of(rules, kind, id)?;
    Ok(EditPlan {
        kind,
        change: ListChange::Remove(index),
    })
}

fn plan_enable(rules: &Ruleset, kind: Kind, id: &str, enabled: bool) -> Result<EditPlan, EditError>
    ensures { Tries (refusal_of_edit rules.now (Edit.Enable kind id.now enabled))
        (IsPlanOf (Edit.Enable kind id.now enabled) rules.now) result }
{
    let index = place_of(rules, kind, id)?;
    Ok(EditPlan {
        kind,
        change: ListChange::Enable(index, enabled),
    })
}

fn plan_actions(
    alloc: Global,
    rules: &Ruleset,
    kind: Kind,
    id: &str,
    actions: &JsonList,
) -> Result<EditPlan, EditError>
    requires { list_all is_valid actions.now.items ≡ true }
    ensures { Tries (refusal_of_edit rules.now (Edit.SetActions kind id.now actions.now))
        (IsPlanOf (Edit.SetActions kind id.now actions.now) rules.now) result }
{
    check_actions(actions)?;
    let index = place_of(rules, kind, id)?;
    let actions = Actions::read(alloc, actions.copied(alloc)?)?;
    Ok(EditPlan {
        kind,
        change: ListChange::SetActions(index, actions),
    })
}

/// Carries a plan out that was made for these rules. It takes no memory.
#[tactic(auto, unfolding(crate::specs::Planning::planned, crate::specs::Planning::is_made_for))]
pub fn apply(rules: &mut Ruleset, plan: EditPlan)
    requires made_for { is_made_for rules.old plan ≡ true }
    ensures changed { rules.new ≡ planned plan rules.old }
{
    rules.change(plan.kind, plan.change);
}
