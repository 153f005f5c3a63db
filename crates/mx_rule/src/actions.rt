ghost use Rattle.std.specs.Prelude.{◌≡◌, true, map, IfOk};
ghost use Rattle.std.specs.List.{list_all};
ghost use Rattle.mx_json.specs.Json.{is_valid};
ghost use Rattle.mx_rule.specs.Actions.{action_of};

use crate::action::Action;
use mx_json::{Json, JsonList, OutOfMemory};
use sqlite_items::Items;
use std::alloc::Global;
use std::marker::Model;

/// The actions of a rule, seen as the JSON values that they were given as.
#[derive(Drop)]
pub struct Actions {
    given: JsonList,
    read: Items<Action>,
}

impl Model for Actions {
    ghost use Rattle.std.specs.Prelude.{List};
    ghost use Rattle.mx_json.specs.declared.value.Json.{Json};

    ghost Value = { List Json };

    ghost use Rattle.mx_json.specs.contracts.value.Json as whole;
    ghost use Rattle.std.specs.Coded.{codes};

    ghost coded = { Prim.hlevel (codes, whole.the_row.coded) };

    ghost use Rattle.std.specs.Prelude.{◌≡◌, true, map};
    ghost use Rattle.std.specs.List.{list_all};
    ghost use Rattle.mx_json.specs.Json.{is_valid};
    ghost use Rattle.mx_rule.specs.Actions.{action_of};

    ghost view = { λ actions. actions.given.items };

    ghost invariant = { λ actions. (list_all is_valid actions.given.items ≡ true)
        × (actions.read ≡ map action_of actions.given.items) };
}

impl Actions {
    /// The actions that these values are.
    ///
    /// # Errors
    ///
    /// `OutOfMemory` where the allocator has none.
    pub fn read(alloc: Global, given: JsonList) -> Result<Actions, OutOfMemory>
        requires { list_all is_valid given.items ≡ true }
        ensures { IfOk result (λ actions. actions ≡ given.items) }
    {
        let read = read_each(alloc, given.items.as_slice())?;
        Ok(Actions { given, read })
    }

    /// What they do, in the order given.
    pub fn as_slice(&self) -> &[Action]
        ensures { result.now ≡ map action_of self.now }
    {
        self.read.as_slice()
    }

    /// The values that they were given as.
    pub fn given(&self) -> &[Json]
        ensures given { result.now ≡ self.now }
        ensures valid { list_all is_valid self.now ≡ true }
    {
        self.given.items.as_slice()
    }

    /// Equal actions of their own.
    ///
    /// # Errors
    ///
    /// `OutOfMemory` where the allocator has none.
    pub fn copied(&self, alloc: Global) -> Result<Actions, OutOfMemory>
        ensures { IfOk result (λ actions. actions ≡ self.now) }
    {
        Actions::read(alloc, self.given.copied(alloc)?)
    }
}

fn read_each(alloc: Global, given: &[Json]) -> Result<Items<Action>, OutOfMemory>
    requires { list_all is_valid given.now ≡ true }
    ensures { IfOk result (λ read. read ≡ map action_of given.now) }
{
    let mut read = Vec::with_capacity(alloc, given.len())?;
    for json in given {
        read.push(Action::read(alloc, json)?)?;
    }
    Ok(Items::from_vec(read))
}
