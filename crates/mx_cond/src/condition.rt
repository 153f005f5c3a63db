ghost use Rattle.std.specs.Prelude.{◌≡◌, ◌↔◌, ℕ, true, false, List, Option, IfOk, IsTrue};
ghost use Rattle.mx_json.specs.Gives.{Gives};
ghost use Rattle.mx_json.specs.Json.{is_valid};
ghost use Rattle.mx_cond.specs.Condition.{is_condition, read_condition};
ghost use Rattle.mx_cond.specs.Facts.{EventFacts, told_by};
ghost use Rattle.mx_cond.specs.Holds.{Holds, depends_on_owner};

use crate::error::ConditionError;
use crate::facts::Facts;
use crate::kinds::wanted_by;
use crate::wanted::Wanted;
use mx_glob::Scratch;
use mx_json::{Json, OutOfMemory};
use std::alloc::Global;
use std::marker::Model;

/// A condition of a push rule, seen as the JSON value that it was read from.
#[derive(Drop)]
pub struct Condition {
    json: Json,
    wanted: Wanted,
}

impl Model for Condition {
    ghost use Rattle.mx_json.specs.declared.value.Json.{Json};

    ghost Value = { Json };

    ghost use Rattle.mx_json.specs.contracts.value.Json as whole;
    ghost use Rattle.std.specs.Coded.{codes};

    ghost coded = { Prim.hlevel (codes, whole.the_row.coded) };

    ghost use Rattle.std.specs.Prelude.{◌≡◌, true, Some};
    ghost use Rattle.mx_json.specs.Json.{is_valid};
    ghost use Rattle.mx_cond.specs.Condition.{wanted_by};

    ghost view = { λ condition. condition.json };

    ghost invariant = { λ condition. (is_valid condition.json ≡ true)
        × (wanted_by condition.json ≡ Some condition.wanted) };
}

impl Condition {
    /// The condition that a JSON value is (Client-Server API v1.11, "Conditions for push rules"). A
    /// condition of an unknown kind is kept, and never holds.
    ///
    /// # Errors
    ///
    /// `BadCondition` exactly where the value isn't an object with a text `kind`, or is of a known
    /// kind and lacks a field, has one of another JSON type, or has a pattern of more than 1,024
    /// bytes. `OutOfMemory` where the allocator has none.
    pub fn from_json(alloc: Global, json: &Json) -> Result<Condition, ConditionError>
        requires { is_valid json.now ≡ true }
        ensures { Gives ConditionError.OutOfMemory result (read_condition json.now) }
    {
        let wanted = wanted_by(alloc, json)?;
        let json = json.copied(alloc)?;
        Ok(Condition { json, wanted })
    }

    /// The condition that a JSON value is, as `from_json` reads it, of a value that is kept and not
    /// copied.
    ///
    /// # Errors
    ///
    /// As `from_json`.
    pub fn read(alloc: Global, json: Json) -> Result<Condition, ConditionError>
        requires { is_valid json ≡ true }
        ensures { Gives ConditionError.OutOfMemory result (read_condition json) }
    {
        let wanted = wanted_by(alloc, &json)?;
        Ok(Condition { json, wanted })
    }

    /// The value that it was read from.
    pub fn json(&self) -> &Json
        ensures whole { result.now ≡ self.now }
        ensures valid { is_valid self.now ≡ true }
        ensures condition { is_condition self.now ≡ true }
    {
        &self.json
    }

    /// Whether the condition holds of the facts (Client-Server API v1.11, "Conditions for push
    /// rules"). A pattern or a name is compared case apart, by full case folding. Only the scratch
    /// takes memory, for the texts that are compared and aren't in it.
    ///
    /// # Errors
    ///
    /// `OutOfMemory` where the allocator has none.
    pub fn holds(
        &self,
        _alloc: Global,
        facts: &Facts,
        scratch: &mut Scratch,
    ) -> Result<bool, OutOfMemory>
        ensures { IfOk result (λ holds. IsTrue holds ↔ Holds self.now (told_by facts.now)) }
    {
        self.wanted.is_met(facts, scratch)
    }

    /// Whether it may hold for one owner of the rules and not for another in the same room, with
    /// the same event: so a contains_display_name alone.
    pub fn depends_on_owner(&self) -> bool
        ensures exactly { result ≡ depends_on_owner self.now }
        ensures otherwise { result ≡ false → (facts : EventFacts) (name : Option (List ℕ))
            → Holds self.now facts ↔ Holds self.now (record facts { owner_name = name }) }
    {
        self.wanted.wants_name()
    }

    /// An equal condition of its own. Its value isn't read again.
    ///
    /// # Errors
    ///
    /// `OutOfMemory` where the allocator has none.
    pub fn copied(&self, alloc: Global) -> Result<Condition, OutOfMemory>
        ensures { IfOk result (λ condition. condition ≡ self.now) }
    {
        let wanted = self.wanted.copied(alloc)?;
        let json = self.json.copied(alloc)?;
        Ok(Condition { json, wanted })
    }
}
