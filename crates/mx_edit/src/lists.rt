//! The rules of a kind with one more among them.

ghost use Rattle.std.specs.Prelude.{◌≡◌, ◌+◌, ◌<◌, ◌≤◌, not, length, position, slice_set, IfOk};
ghost use Rattle.std.specs.Prelude.{IfSome};
ghost use Rattle.std.specs.Option.{option_map_or};
ghost use Rattle.mx_rule.specs.Editing.{is_own_with, put_after, put_before, put_by_itself};
ghost use Rattle.mx_rule.specs.Editing.{put_first_own, with_put, without};
ghost use Rattle.mx_rule.specs.Ruleset.{is_master};

use crate::checks::is_own_with;
use mx_json::{JsonText, OutOfMemory};
use mx_rule::{Kind, Rule};
use std::alloc::Global;

/// Copies of the rules of a kind, and the new rule where it is put.
pub(crate) fn with_put(
    alloc: Global,
    rules: &[Rule],
    kind: Kind,
    new: Rule,
    before: &Option<JsonText>,
    after: &Option<JsonText>,
) -> Result<Vec<Rule>, OutOfMemory>
    ensures { IfOk result (λ list. list.items ≡ with_put kind new before.now after.now rules.now) }
{
    match (before, after) {
        (Some(anchor), _) => put_before(alloc, rules, kind, new, anchor.as_str()),
        (None, Some(anchor)) => put_after(alloc, rules, kind, new, anchor.as_str()),
        (None, None) => put_by_itself(alloc, rules, kind, new),
    }
}

fn put_before(
    alloc: Global,
    rules: &[Rule],
    kind: Kind,
    new: Rule,
    anchor: &str,
) -> Result<Vec<Rule>, OutOfMemory>
    ensures { IfOk result (λ list. list.items
        ≡ put_before (is_own_with kind anchor.now) new (without new.id rules.now)) }
{
    let mut list = others(alloc, rules, new.id())?;
    let place = place_of_own(&list, kind, anchor).unwrap_or(list.len());
    list.insert(place, new)?;
    Ok(list)
}

fn put_after(
    alloc: Global,
    rules: &[Rule],
    kind: Kind,
    new: Rule,
    anchor: &str,
) -> Result<Vec<Rule>, OutOfMemory>
    ensures { IfOk result (λ list. list.items
        ≡ put_after (is_own_with kind anchor.now) new (without new.id rules.now)) }
{
    let mut list = others(alloc, rules, new.id())?;
    let place = place_past_own(&list, kind, anchor);
    list.insert(place, new)?;
    Ok(list)
}

fn put_by_itself(
    alloc: Global,
    rules: &[Rule],
    kind: Kind,
    new: Rule,
) -> Result<Vec<Rule>, OutOfMemory>
    ensures { IfOk result (λ list. list.items ≡ put_by_itself kind new rules.now) }
{
    match place_of_own(rules, kind, new.id()) {
        Some(place) => put_at(alloc, rules, place, new),
        None => put_first_own(alloc, rules, kind, new),
    }
}

fn put_first_own(
    alloc: Global,
    rules: &[Rule],
    kind: Kind,
    new: Rule,
) -> Result<Vec<Rule>, OutOfMemory>
    ensures { IfOk result (λ list. list.items ≡ put_first_own kind new (without new.id rules.now)) }
{
    let mut list = others(alloc, rules, new.id())?;
    let place = place_past_master(&list, kind).unwrap_or(list.len());
    list.insert(place, new)?;
    Ok(list)
}

fn put_at(alloc: Global, rules: &[Rule], place: usize, new: Rule) -> Result<Vec<Rule>, OutOfMemory>
    requires { place < length rules.now }
    ensures { IfOk result (λ list. list.items ≡ slice_set rules.now place new) }
{
    let mut list = copied(alloc, rules)?;
    list[place] = new;
    Ok(list)
}

fn place_of_own(rules: &[Rule], kind: Kind, id: &str) -> Option<usize>
    ensures place { result ≡ position (is_own_with kind id.now) rules.now }
    ensures within { IfSome result (λ place. place < length rules.now) }
{
    rules.iter().position(|rule| is_own_with(rule, kind, id))
}

// The place directly after that of the user's rule with this id, and the end where there is none.
fn place_past_own(rules: &[Rule], kind: Kind, id: &str) -> usize
    ensures place { let found = position (is_own_with kind id.now) rules.now in
        result ≡ option_map_or (λ i. i + 1) found (length rules.now) }
    ensures within { result ≤ length rules.now }
{
    match place_of_own(rules, kind, id) {
        Some(place) => place + 1,
        None => rules.len(),
    }
}

fn place_past_master(rules: &[Rule], kind: Kind) -> Option<usize>
    ensures place { result ≡ position (λ rule. not (is_master kind rule)) rules.now }
    ensures within { IfSome result (λ place. place < length rules.now) }
{
    rules.iter().position(|rule| !rule.is_master(kind))
}

fn others(alloc: Global, rules: &[Rule], id: &str) -> Result<Vec<Rule>, OutOfMemory>
    ensures { IfOk result (λ list. list.items ≡ without id.now rules.now) }
{
    let mut list = Vec::new(alloc);
    for rule in rules {
        if rule.id() != id {
            list.push(rule.copied(alloc)?)?;
        }
    }
    Ok(list)
}

fn copied(alloc: Global, rules: &[Rule]) -> Result<Vec<Rule>, OutOfMemory>
    ensures { IfOk result (λ list. list.items ≡ rules.now) }
{
    let mut list = Vec::new(alloc);
    for rule in rules {
        list.push(rule.copied(alloc)?)?;
    }
    Ok(list)
}
