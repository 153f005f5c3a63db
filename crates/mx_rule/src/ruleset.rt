ghost use Rattle.std.specs.Prelude.{◌≡◌, ◌<◌, true, length, position, slice_get, IfOk, IfSome};
ghost use Rattle.std.specs.Option.{option_copied};
ghost use Rattle.mx_cond.specs.Facts.{told_by};
ghost use Rattle.mx_rule.specs.Editing.{list_changed, has_id, with_list};
ghost use Rattle.mx_rule.specs.Ruleset.{are_rules_of, by_importance, flat, own_among, placed};
ghost use Rattle.mx_rule.specs.Ruleset.{rules_of_kind, IsFirstMatch};

use crate::kind::{Kind, RulePlace};
use crate::list::RuleList;
use crate::list_change::ListChange;
use crate::rule::Rule;
use mx_cond::Facts;
use mx_glob::Scratch;
use mx_json::OutOfMemory;
use std::alloc::Global;
use std::marker::Model;

/// A user's push rules: five lists, one a kind, each in order of importance.
#[derive(Drop)]
pub struct Ruleset {
    override_: RuleList,
    content: RuleList,
    room: RuleList,
    sender: RuleList,
    underride: RuleList,
}

impl Model for Ruleset {
    ghost use Rattle.mx_rule.specs.Ruleset.{PushRuleset};

    ghost Value = { PushRuleset };

    ghost use Rattle.mx_rule.specs.contracts.rule.Rule as rule;
    ghost use Rattle.std.specs.Coded.{codes};

    ghost coded = { Prim.hlevel (codes, rule.the_row.coded) };

    ghost use Rattle.mx_rule.specs.Ruleset.{IsRuleset};

    ghost view = { λ rules. record {
      override = rules.override_;
      content = rules.content;
      room = rules.room;
      sender = rules.sender;
      underride = rules.underride;
    } };

    ghost invariant = { λ rules. IsRuleset record {
      override = rules.override_;
      content = rules.content;
      room = rules.room;
      sender = rules.sender;
      underride = rules.underride;
    } };
}

impl Ruleset {
    /// The ruleset of these five lists.
    pub fn of(
        override_: RuleList,
        content: RuleList,
        room: RuleList,
        sender: RuleList,
        underride: RuleList,
    ) -> Ruleset
        requires override_rules { are_rules_of Kind.Override override_ ≡ true }
        requires content_rules { are_rules_of Kind.Content content ≡ true }
        requires room_rules { are_rules_of Kind.Room room ≡ true }
        requires sender_rules { are_rules_of Kind.Sender sender ≡ true }
        requires underride_rules { are_rules_of Kind.Underride underride ≡ true }
        ensures { result ≡ record {
          override = override_;
          content = content;
          room = room;
          sender = sender;
          underride = underride;
        } }
    {
        Ruleset {
            override_,
            content,
            room,
            sender,
            underride,
        }
    }

    /// The rules of a kind, in order of importance.
    pub fn rules(&self, kind: Kind) -> &[Rule]
        ensures rules { result.now ≡ rules_of_kind kind self.now }
        ensures ordered { are_rules_of kind result.now ≡ true }
    {
        self.list(kind).as_slice()
    }

    /// How many rules of a kind the user made. It reads none of them.
    pub fn own_count(&self, kind: Kind) -> usize
        ensures { result ≡ own_among kind (rules_of_kind kind self.now) }
    {
        self.list(kind).own_count(kind)
    }

    fn list(&self, kind: Kind) -> &RuleList
        ensures list { result.now ≡ rules_of_kind kind self.now }
        ensures ordered { are_rules_of kind result.now ≡ true }
    {
        match kind {
            Kind::Override => &self.override_,
            Kind::Content => &self.content,
            Kind::Room => &self.room,
            Kind::Sender => &self.sender,
            Kind::Underride => &self.underride,
        }
    }

    /// The rule at a place; `None` exactly where there is none.
    pub fn rule_at(&self, place: &RulePlace) -> Option<&Rule>
        ensures { option_copied result
            ≡ slice_get (rules_of_kind place.now.kind self.now) place.now.index }
    {
        self.rules(place.kind).get(place.index)
    }

    /// The place of the rule of this kind with this id; `None` exactly where there is none.
    pub fn place_of(&self, kind: Kind, id: &str) -> Option<usize>
        ensures place { result ≡ position (has_id id.now) (rules_of_kind kind self.now) }
        ensures within { IfSome result (λ index. index < length (rules_of_kind kind self.now)) }
        ensures ordered { are_rules_of kind (rules_of_kind kind self.now) ≡ true }
    {
        self.list(kind).place_of(id)
    }

    /// Makes a change of the rules of a kind, after which they still have their kind's criterion,
    /// stand in order of importance, and have no two of one id. It takes no memory.
    pub fn change(&mut self, kind: Kind, change: ListChange)
        requires { are_rules_of kind (list_changed change (rules_of_kind kind self.old)) ≡ true }
        ensures { self.new
            ≡ with_list kind (list_changed change (rules_of_kind kind self.old)) self.old }
    {
        match kind {
            Kind::Override => self.override_.change(change),
            Kind::Content => self.content.change(change),
            Kind::Room => self.room.change(change),
            Kind::Sender => self.sender.change(change),
            Kind::Underride => self.underride.change(change),
        }
    }

    /// The place of the rule that decides for an event: in order of importance the first that is
    /// enabled and matches; `None` exactly where none does. It takes memory only to fold texts.
    ///
    /// # Errors
    ///
    /// `OutOfMemory` where the allocator has none.
    #[tactic(auto, unfolding(crate::specs::Ruleset::flat))]
    pub fn decide(
        &self,
        alloc: Global,
        facts: &Facts,
        scratch: &mut Scratch,
    ) -> Result<Option<RulePlace>, OutOfMemory>
        ensures { IfOk result (IsFirstMatch (told_by facts.now) (flat self.now)) }
    {
        for kind in Kind::BY_IMPORTANCE {
            if let Some(place) = self.first_of_kind(alloc, kind, facts, scratch)? {
                return Ok(Some(place));
            }
        }
        Ok(None)
    }

    fn first_of_kind(
        &self,
        alloc: Global,
        kind: Kind,
        facts: &Facts,
        scratch: &mut Scratch,
    ) -> Result<Option<RulePlace>, OutOfMemory>
        ensures { IfOk result
            (IsFirstMatch (told_by facts.now) (by_importance kind (placed kind self.now))) }
    {
        for (index, rule) in self.rules(kind).iter().enumerate() {
            if rule.may_decide(alloc, facts, scratch)? {
                return Ok(Some(RulePlace { kind, index }));
            }
        }
        Ok(None)
    }

    /// An equal ruleset of its own.
    ///
    /// # Errors
    ///
    /// `OutOfMemory` where the allocator has none.
    pub fn copied(&self, alloc: Global) -> Result<Ruleset, OutOfMemory>
        ensures { IfOk result (λ rules. rules ≡ self.now) }
    {
        Ok(Ruleset {
            override_: self.override_.copied(alloc)?,
            content: self.content.copied(alloc)?,
            room: self.room.copied(alloc)?,
            sender: self.sender.copied(alloc)?,
            underride: self.underride.copied(alloc)?,
        })
    }
}
