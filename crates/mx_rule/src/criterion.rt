ghost use Rattle.std.specs.Prelude.{◌≡◌, ◌↔◌, All, IfOk, IsTrue};
ghost use Rattle.std.specs.Option.{option_copied};
ghost use Rattle.mx_cond.specs.Facts.{told_by};
ghost use Rattle.mx_cond.specs.Holds.{Holds};
ghost use Rattle.mx_rule.specs.Rule.{conditions_of, pattern_of, Meets};

use crate::pattern::Pattern;
use mx_cond::{Condition, Facts};
use mx_glob::Scratch;
use mx_json::OutOfMemory;
use sqlite_items::Items;
use std::alloc::Global;

/// What a rule asks of an event (Client-Server API v1.11, "Push rules").
#[derive(Drop)]
pub enum Criterion {
    /// That all these conditions hold: an override or an underride rule.
    Conditions(Items<Condition>),
    /// That the pattern matches a word of the message's body: a content rule.
    Word(Pattern),
    /// That the event is in the room whose id is the rule's: a room rule.
    InRoom,
    /// That it is from the sender whose id is the rule's: a sender rule.
    FromSender,
}

impl Criterion {
    /// The conditions of an override or underride rule, in the order given; empty for other kinds.
    pub fn conditions(&self) -> &[Condition]
        ensures { result.now ≡ conditions_of self.now }
    {
        match self {
            Criterion::Conditions(conditions) => conditions.as_slice(),
            _ => &[],
        }
    }

    /// The pattern of a content rule; `None` exactly for other kinds.
    pub fn pattern(&self) -> Option<&str>
        ensures { option_copied result ≡ pattern_of self.now }
    {
        match self {
            Criterion::Word(pattern) => Some(pattern.as_str()),
            _ => None,
        }
    }

    /// Whether an event meets what a rule with this id asks. It takes memory only to fold a text.
    ///
    /// # Errors
    ///
    /// `OutOfMemory` where the allocator has none.
    pub fn is_met(
        &self,
        alloc: Global,
        id: &str,
        facts: &Facts,
        scratch: &mut Scratch,
    ) -> Result<bool, OutOfMemory>
        ensures { IfOk result (λ met. IsTrue met ↔ Meets self.now id.now (told_by facts.now)) }
    {
        match self {
            Criterion::Conditions(conditions) => {
                all_hold(alloc, conditions.as_slice(), facts, scratch)
            }
            Criterion::Word(pattern) => pattern.is_word_of_body(facts.event, scratch),
            Criterion::InRoom => Ok(facts.event.room_id().as_text() == id),
            Criterion::FromSender => Ok(facts.event.sender().as_text() == id),
        }
    }

    /// An equal criterion of its own.
    ///
    /// # Errors
    ///
    /// `OutOfMemory` where the allocator has none.
    pub fn copied(&self, alloc: Global) -> Result<Criterion, OutOfMemory>
        ensures { IfOk result (λ criterion. criterion ≡ self.now) }
    {
        match self {
            Criterion::Conditions(conditions) => {
                Ok(Criterion::Conditions(copied(alloc, conditions.as_slice())?))
            }
            Criterion::Word(pattern) => Ok(Criterion::Word(pattern.copied(alloc)?)),
            Criterion::InRoom => Ok(Criterion::InRoom),
            Criterion::FromSender => Ok(Criterion::FromSender),
        }
    }
}

fn all_hold(
    alloc: Global,
    conditions: &[Condition],
    facts: &Facts,
    scratch: &mut Scratch,
) -> Result<bool, OutOfMemory>
    ensures { IfOk result
        (λ hold. IsTrue hold
        ↔ All (λ condition. Holds condition (told_by facts.now)) conditions.now) }
{
    for condition in conditions {
        if !condition.holds(alloc, facts, scratch)? {
            return Ok(false);
        }
    }
    Ok(true)
}

fn copied(alloc: Global, conditions: &[Condition]) -> Result<Items<Condition>, OutOfMemory>
    ensures { IfOk result (λ copies. copies ≡ conditions.now) }
{
    let mut copies = Vec::with_capacity(alloc, conditions.len())?;
    for condition in conditions {
        copies.push(condition.copied(alloc)?)?;
    }
    Ok(Items::from_vec(copies))
}
