ghost use Rattle.std.specs.Prelude.{◌≡◌, ◌↔◌, true, map, IfOk, IsTrue};
ghost use Rattle.std.specs.List.{list_all};
ghost use Rattle.std.specs.Option.{option_copied};
ghost use Rattle.mx_json.specs.Json.{is_valid};
ghost use Rattle.mx_cond.specs.Facts.{told_by};
ghost use Rattle.mx_rule.specs.Actions.{action_of, verdict_of};
ghost use Rattle.mx_rule.specs.Deciding.{may_decide};
ghost use Rattle.mx_rule.specs.Editing.{with_actions, with_enabled};
ghost use Rattle.mx_rule.specs.Rule.{conditions_of, is_passed_over, looks_for_mention, pattern_of};
ghost use Rattle.mx_rule.specs.Rule.{MayDecide};
ghost use Rattle.mx_rule.specs.Ruleset.{is_master, is_own};

use crate::action::Action;
use crate::actions::Actions;
use crate::criterion::Criterion;
use crate::kind::Kind;
use crate::verdict::Verdict;
use mx_cond::{Condition, Facts};
use mx_event::Event;
use mx_glob::Scratch;
use mx_json::{Json, JsonText, OutOfMemory};
use std::alloc::Global;
use std::marker::Model;

/// A push rule (Client-Server API v1.11, "Push rules").
#[derive(Drop)]
pub struct Rule {
    id: JsonText,
    predefined: bool,
    enabled: bool,
    actions: Actions,
    criterion: Criterion,
    // Whether the id is that of a rule which isn't evaluated for an event that
    // says whom it mentions.
    looks_for_mention: bool,
}

impl Model for Rule {
    ghost use Rattle.mx_rule.specs.Rule.{PushRule};

    ghost Value = { PushRule };

    ghost use Rattle.mx_json.specs.contracts.value.Json as whole;
    ghost use Rattle.std.specs.Coded.{codes};

    ghost coded = { Prim.hlevel (codes, whole.the_row.coded) };

    ghost view = { λ rule. record {
      id = rule.id;
      predefined = rule.predefined;
      enabled = rule.enabled;
      actions = rule.actions;
      criterion = rule.criterion;
    } };

    ghost use Rattle.std.specs.Prelude.{◌≡◌};
    ghost use Rattle.mx_rule.specs.Rule.{looks_for_mention as looks_for_mention_in};

    ghost invariant = { λ rule. rule.looks_for_mention ≡ looks_for_mention_in rule.id };
}

impl Rule {
    /// A rule of its parts.
    pub fn new(
        id: JsonText,
        predefined: bool,
        enabled: bool,
        actions: Actions,
        criterion: Criterion,
    ) -> Rule
        ensures { result ≡ record {
          id = id;
          predefined = predefined;
          enabled = enabled;
          actions = actions;
          criterion = criterion;
        } }
    {
        let looks_for_mention = looks_for_mention(id.as_str());
        Rule {
            id,
            predefined,
            enabled,
            actions,
            criterion,
            looks_for_mention,
        }
    }

    /// The id, which no other rule of its kind has.
    pub fn id(&self) -> &str
        ensures { result.now ≡ self.now.id }
    {
        self.id.as_str()
    }

    /// Whether the rule is there from the start, and not made by the user.
    pub fn predefined(&self) -> bool
        ensures { result ≡ self.now.predefined }
    {
        self.predefined
    }

    /// Whether the rule is enabled.
    pub fn enabled(&self) -> bool
        ensures { result ≡ self.now.enabled }
    {
        self.enabled
    }

    /// What its actions do, in the order given.
    pub fn actions(&self) -> &[Action]
        ensures { result.now ≡ map action_of self.now.actions }
    {
        self.actions.as_slice()
    }

    /// Its actions, as they were given.
    pub fn given_actions(&self) -> &[Json]
        ensures given { result.now ≡ self.now.actions }
        ensures valid { list_all is_valid self.now.actions ≡ true }
    {
        self.actions.given()
    }

    /// Whether a rule of this kind is the one that switches all others off.
    pub fn is_master(&self, kind: Kind) -> bool
        ensures { result ≡ is_master kind self.now }
    {
        match kind {
            Kind::Override => self.id.as_str() == ".m.rule.master",
            _ => false,
        }
    }

    /// Whether a rule of this kind was made by the user.
    pub fn is_own(&self, kind: Kind) -> bool
        ensures { result ≡ is_own kind self.now }
    {
        !self.is_master(kind) && !self.predefined
    }

    // Enables or disables the rule.
    pub(crate) fn set_enabled(&mut self, enabled: bool)
        ensures { self.new ≡ with_enabled enabled self.old }
    {
        self.enabled = enabled;
    }

    // Sets what the rule does.
    pub(crate) fn set_actions(&mut self, actions: Actions)
        ensures { self.new ≡ with_actions actions self.old }
    {
        self.actions = actions;
    }

    /// What it asks of an event.
    pub fn criterion(&self) -> &Criterion
        ensures { result.now ≡ self.now.criterion }
    {
        &self.criterion
    }

    /// Its conditions, in the order given; empty for other kinds than override and underride.
    pub fn conditions(&self) -> &[Condition]
        ensures { result.now ≡ conditions_of self.now.criterion }
    {
        self.criterion.conditions()
    }

    /// Its pattern; `None` exactly where the rule isn't a content rule.
    pub fn pattern(&self) -> Option<&str>
        ensures { option_copied result ≡ pattern_of self.now.criterion }
    {
        self.criterion.pattern()
    }

    /// What the rule says of an event for which it decides: whether it notifies, and the tweaks.
    ///
    /// # Errors
    ///
    /// `OutOfMemory` where the allocator has none.
    pub fn verdict(&self, alloc: Global) -> Result<Verdict, OutOfMemory>
        ensures { IfOk result (λ verdict. verdict ≡ verdict_of self.now.actions) }
    {
        Verdict::by(alloc, self.actions.as_slice())
    }

    /// Whether the rule is enabled and matches the event. It takes memory only to fold a text.
    ///
    /// # Errors
    ///
    /// `OutOfMemory` where the allocator has none.
    pub fn may_decide(
        &self,
        alloc: Global,
        facts: &Facts,
        scratch: &mut Scratch,
    ) -> Result<bool, OutOfMemory>
        ensures meaning { IfOk result (λ may. IsTrue may ↔ MayDecide self.now (told_by facts.now)) }
        ensures exact { IfOk result (λ may. may ≡ may_decide self.now (told_by facts.now)) }
    {
        if !self.enabled || self.is_passed_over(facts.event) {
            return Ok(false);
        }
        self.criterion
            .is_met(alloc, self.id.as_str(), facts, scratch)
    }

    /// An equal rule of its own.
    ///
    /// # Errors
    ///
    /// `OutOfMemory` where the allocator has none.
    pub fn copied(&self, alloc: Global) -> Result<Rule, OutOfMemory>
        ensures { IfOk result (λ rule. rule ≡ self.now) }
    {
        Ok(Rule {
            id: self.id.copied(alloc)?,
            predefined: self.predefined,
            enabled: self.enabled,
            actions: self.actions.copied(alloc)?,
            criterion: self.criterion.copied(alloc)?,
            looks_for_mention: self.looks_for_mention,
        })
    }

    fn is_passed_over(&self, event: &Event) -> bool
        ensures { result ≡ is_passed_over self.now.id event.now }
    {
        self.looks_for_mention && event.has_mentions()
    }
}

// The rules that aren't evaluated for an event which says itself whom it mentions.
fn looks_for_mention(id: &str) -> bool
    ensures { result ≡ looks_for_mention id.now }
{
    id == ".m.rule.contains_display_name"
        || id == ".m.rule.roomnotif"
        || id == ".m.rule.contains_user_name"
}
