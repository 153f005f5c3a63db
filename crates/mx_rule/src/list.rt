ghost use Rattle.std.specs.Prelude.{◌≡◌, ◌<◌, true, false, [], ◌∷◌, ◌++◌, length, map, position};
ghost use Rattle.std.specs.Prelude.{remove, string_bytes, IfOk, IfSome, OnOk};
ghost use Rattle.std.specs.List.{list_any};
ghost use Rattle.std.specs.Str.{bytes_eq};
ghost use Rattle.indexmap.specs.IndexMap.{keys, values};
ghost use Rattle.mx_rule.specs.Editing.{list_changed, changed_at, has_id, with_actions};
ghost use Rattle.mx_rule.specs.Editing.{with_enabled};
ghost use Rattle.mx_rule.specs.Ruleset.{are_distinct, ids_of, own_among};

use crate::actions::Actions;
use crate::kind::Kind;
use crate::list_change::ListChange;
use crate::rule::Rule;
use indexmap::IndexMap;
use mx_json::OutOfMemory;
use std::alloc::Global;
use std::marker::Model;

/// The rules of a kind in order of importance, by their ids.
#[derive(Drop)]
pub struct RuleList {
    rules: IndexMap<String, Rule>,
    // How many of them the user made, if they are override rules, and if they are of another kind.
    own_override: usize,
    own_other: usize,
}

impl Model for RuleList {
    ghost use Rattle.std.specs.Prelude.{List};
    ghost use Rattle.mx_rule.specs.Rule.{PushRule};

    ghost Value = { List PushRule };

    ghost use Rattle.mx_rule.specs.contracts.rule.Rule as rule;
    ghost use Rattle.std.specs.Coded.{codes};

    ghost coded = { Prim.hlevel (codes, rule.the_row.coded) };

    ghost use Rattle.std.specs.Prelude.{◌≡◌, true, map};
    ghost use Rattle.std.specs.String.{string_bytes};
    ghost use Rattle.indexmap.specs.IndexMap.{keys, values};
    ghost use Rattle.mx_rule.specs.declared.kind.Kind.TheVariants.{Override, Content};
    ghost use Rattle.mx_rule.specs.Ruleset.{are_distinct, ids_of, own_among};

    ghost view = { λ list. values list.rules };

    ghost invariant = { λ list. (map string_bytes (keys list.rules) ≡ ids_of (values list.rules))
        × (are_distinct (ids_of (values list.rules)) ≡ true)
        × (list.own_override ≡ own_among Override (values list.rules))
        × (list.own_other ≡ own_among Content (values list.rules)) };
}

impl RuleList {
    /// The list of these rules.
    ///
    /// # Errors
    ///
    /// `OutOfMemory` where the allocator has none.
    pub fn of(alloc: Global, rules: Vec<Rule>) -> Result<RuleList, OutOfMemory>
        requires { are_distinct (ids_of rules.items) ≡ true }
        ensures { IfOk result (λ list. list ≡ rules.items) }
    {
        let mut by_id = IndexMap::with_capacity(alloc, rules.len())?;
        for rule in rules {
            put_last(alloc, &mut by_id, rule)?;
        }
        let own_override = own_among(by_id.values().as_slice(), Kind::Override);
        let own_other = own_among(by_id.values().as_slice(), Kind::Content);
        Ok(RuleList {
            rules: by_id,
            own_override,
            own_other,
        })
    }

    /// The rules, in order of importance.
    pub fn as_slice(&self) -> &[Rule]
        ensures rules { result.now ≡ self.now }
        ensures distinct { are_distinct (ids_of self.now) ≡ true }
    {
        self.rules.values().as_slice()
    }

    /// The place of the rule with this id; `None` exactly where there is none.
    pub fn place_of(&self, id: &str) -> Option<usize>
        ensures place { result ≡ position (has_id id.now) self.now }
        ensures within { IfSome result (λ index. index < length self.now) }
    {
        self.rules.get_index_of(id)
    }

    /// How many of the rules the user made, if they are of this kind. It reads none of them.
    pub fn own_count(&self, kind: Kind) -> usize
        ensures { result ≡ own_among kind self.now }
    {
        match kind {
            Kind::Override => self.own_override,
            _ => self.own_other,
        }
    }

    // Makes a change of the rules. It takes no memory.
    pub(crate) fn change(&mut self, change: ListChange)
        ensures { self.new ≡ list_changed change self.old }
    {
        match change {
            ListChange::Replace(list) => *self = list,
            ListChange::Remove(index) => self.remove(index),
            ListChange::Enable(index, enabled) => self.set_enabled(index, enabled),
            ListChange::SetActions(index, actions) => self.set_actions(index, actions),
        }
    }

    fn remove(&mut self, index: usize)
        ensures { self.new ≡ remove self.old index }
    {
        let _removed = self.rules.shift_remove_index(index);
        self.own_override = own_among(self.rules.values().as_slice(), Kind::Override);
        self.own_other = own_among(self.rules.values().as_slice(), Kind::Content);
    }

    fn set_enabled(&mut self, index: usize, enabled: bool)
        ensures { self.new ≡ changed_at index (with_enabled enabled) self.old }
    {
        if let Some(rule) = self.rules.get_index_mut(index) {
            rule.set_enabled(enabled);
        }
    }

    fn set_actions(&mut self, index: usize, actions: Actions)
        ensures { self.new ≡ changed_at index (with_actions actions) self.old }
    {
        if let Some(rule) = self.rules.get_index_mut(index) {
            rule.set_actions(actions);
        }
    }

    /// An equal list of its own.
    ///
    /// # Errors
    ///
    /// `OutOfMemory` where the allocator has none.
    pub fn copied(&self, alloc: Global) -> Result<RuleList, OutOfMemory>
        ensures { IfOk result (λ list. list ≡ self.now) }
    {
        let rules = self.as_slice();
        RuleList::of(alloc, copied(alloc, rules)?)
    }
}

fn own_among(rules: &[Rule], kind: Kind) -> usize
    ensures { result ≡ own_among kind rules.now }
{
    rules.iter().filter(|rule| rule.is_own(kind)).count()
}

// Puts a rule last whose id is new.
fn put_last(
    alloc: Global,
    by_id: &mut IndexMap<String, Rule>,
    rule: Rule,
) -> Result<(), OutOfMemory>
    requires { list_any (bytes_eq rule.id) (map string_bytes (keys by_id.old)) ≡ false }
    ensures ids { OnOk result
        (map string_bytes (keys by_id.new) ≡ map string_bytes (keys by_id.old) ++ rule.id ∷ []) }
    ensures rules { OnOk result (values by_id.new ≡ values by_id.old ++ rule ∷ []) }
{
    let id = String::from_str(alloc, rule.id())?;
    match by_id.insert(id, rule) {
        Ok(_) => Ok(()),
        Err(_) => Err(OutOfMemory),
    }
}

fn copied(alloc: Global, rules: &[Rule]) -> Result<Vec<Rule>, OutOfMemory>
    ensures { IfOk result (λ copies. copies.items ≡ rules.now) }
{
    let mut copies = Vec::new(alloc);
    for rule in rules {
        copies.push(rule.copied(alloc)?)?;
    }
    Ok(copies)
}
