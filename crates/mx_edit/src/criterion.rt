//! What a rule that is put asks of an event.

ghost use Rattle.std.specs.Prelude.{◌≡◌, true};
ghost use Rattle.std.specs.List.{list_all};
ghost use Rattle.mx_json.specs.Json.{is_valid};
ghost use Rattle.mx_cond.specs.Condition.{is_condition};
ghost use Rattle.mx_edit.specs.Planning.{refusal_of_conditions, refusal_of_criterion};
ghost use Rattle.mx_edit.specs.Planning.{refusal_of_each, refusal_unless, Tries};
ghost use Rattle.mx_rule.specs.Editing.{criterion_of, given_items};

use crate::error::EditError;
use mx_cond::{Condition, ConditionError};
use mx_glob::GlobError;
use mx_json::{Json, JsonList, JsonText};
use mx_rule::{Criterion, EditRefusal, Kind, Part, Pattern};
use sqlite_items::Items;
use std::alloc::Global;

// How many conditions a rule may have.
const MOST_CONDITIONS: usize = 64;

/// What a rule of this kind asks of which these parts were given.
pub(crate) fn read_criterion(
    alloc: Global,
    kind: Kind,
    pattern: &Option<JsonText>,
    conditions: &Option<JsonList>,
) -> Result<Criterion, EditError>
    requires { list_all is_valid (given_items conditions.now) ≡ true }
    ensures { Tries (refusal_of_criterion kind pattern.now conditions.now)
        (λ criterion. criterion ≡ criterion_of kind pattern.now conditions.now) result }
{
    match kind {
        Kind::Override | Kind::Underride => read_conditions(alloc, given_items(conditions)),
        Kind::Content => read_pattern(alloc, pattern),
        Kind::Room => Ok(Criterion::InRoom),
        Kind::Sender => Ok(Criterion::FromSender),
    }
}

fn given_items(given: &Option<JsonList>) -> &[Json]
    ensures { result.now ≡ given_items given.now }
{
    match given {
        Some(list) => list.items.as_slice(),
        None => &[],
    }
}

fn read_pattern(alloc: Global, given: &Option<JsonText>) -> Result<Criterion, EditError>
    ensures { Tries (refusal_of_criterion Kind.Content given.now None)
        (λ criterion. criterion ≡ criterion_of Kind.Content given.now None) result }
{
    let Some(text) = given else {
        return Err(EditError::Refused(EditRefusal::BadRule(Part::Pattern)));
    };
    match Pattern::read(alloc, text.as_str()) {
        Ok(pattern) => Ok(Criterion::Word(pattern)),
        Err(GlobError::PatternTooLong) => {
            Err(EditError::Refused(EditRefusal::BadRule(Part::Pattern)))
        }
        Err(GlobError::OutOfMemory) => Err(EditError::OutOfMemory),
    }
}

fn read_conditions(alloc: Global, given: &[Json]) -> Result<Criterion, EditError>
    requires { list_all is_valid given.now ≡ true }
    ensures { Tries (refusal_of_conditions given.now)
        (λ criterion. criterion ≡ Criterion.Conditions given.now) result }
{
    if given.len() > MOST_CONDITIONS {
        return Err(EditError::Refused(EditRefusal::BadRule(Part::Conditions)));
    }
    Ok(Criterion::Conditions(read_each(alloc, given)?))
}

fn read_each(alloc: Global, given: &[Json]) -> Result<Items<Condition>, EditError>
    requires { list_all is_valid given.now ≡ true }
    ensures { Tries (refusal_of_each given.now) (λ conditions. conditions ≡ given.now) result }
{
    let mut conditions = Items::new(alloc);
    for json in given {
        conditions.push(read_condition(alloc, json)?)?;
    }
    Ok(conditions)
}

fn read_condition(alloc: Global, json: &Json) -> Result<Condition, EditError>
    requires { is_valid json.now ≡ true }
    ensures { Tries (refusal_unless (is_condition json.now))
        (λ condition. condition ≡ json.now) result }
{
    match Condition::from_json(alloc, json) {
        Ok(condition) => Ok(condition),
        Err(ConditionError::BadCondition) => {
            Err(EditError::Refused(EditRefusal::BadRule(Part::Conditions)))
        }
        Err(ConditionError::OutOfMemory) => Err(EditError::OutOfMemory),
    }
}
