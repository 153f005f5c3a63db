ghost use Rattle.std.specs.Prelude.{◌≡◌, ℕ, List, true, unwrap_or, IfOk, MatchResult, OnOk};
ghost use Rattle.std.specs.FinMap.{empty, get, insert};
ghost use Rattle.std.specs.FinSet as set;
ghost use Rattle.std.specs.Option.{option_copied};
ghost use Rattle.mx_edit.specs.Planning.{is_made_for, planned, IsPlanOf, Tells};
ghost use Rattle.mx_engine.specs.KeptRules.{shown_rules, users_in, AreKept, KeepsRules};
ghost use Rattle.mx_records.specs.Judging.{verdict_in};
ghost use Rattle.mx_json.specs.Ids.{is_local};
ghost use Rattle.mx_records.specs.Rules.{rules_among};
ghost use Rattle.mx_rule.specs.Editing.{is_valid_edit, refusal_of_edit};
ghost use Rattle.mx_rule.specs.Predefined.{predefined_rules};

use mx_defaults::predefined;
use mx_edit::{EditError, EditPlan, prepare};
use mx_event::Event;
use mx_glob::Scratch;
use mx_json::{IdError, OutOfMemory, UserId};
use mx_judge::judge;
use mx_room::RoomView;
use mx_rule::{Edit, Ruleset, Verdict};
use std::alloc::Global;
use std::collections::HashMap;
use std::marker::Model;

/// The push rules of the local users of a homeserver: those of each user who edited them, and the
/// predefined ones, made once for each user that was remembered, and else anew when they are asked.
///
/// Each call is one or two look-ups by a user's id. None walks the users.
#[derive(Drop)]
pub(crate) struct UserRules {
    server: String,
    kept: HashMap<UserId, KeptRules>,
}

/// The rules of a user, and whether the user edited them: else they are the predefined ones.
#[derive(Drop)]
pub(crate) struct KeptRules {
    pub(crate) rules: Ruleset,
    pub(crate) edited: bool,
}

impl Model for UserRules {
    ghost use Rattle.std.specs.String.{string_bytes};
    ghost use Rattle.mx_engine.specs.KeptRules.{RulesView};

    ghost Value = { RulesView };

    ghost use Rattle.mx_json.specs.contracts.value.Json as json;
    ghost use Rattle.std.specs.Coded.{codes};
    ghost use Rattle.std.specs.FinMap as map;
    ghost use Rattle.std.specs.FinSet as set;

    ghost coded = { Prim.hlevel (codes, map.code, set.code, json.the_row.coded) };

    ghost use Rattle.mx_engine.specs.KeptRules.{AreKept, view_of};

    ghost view = { λ rules. view_of (string_bytes rules.server) rules.kept.entries };

    ghost invariant = { λ rules. AreKept (string_bytes rules.server) rules.kept.entries };
}

impl UserRules {
    /// The rules of the users of this server, none of whom edited them or is remembered.
    pub fn new(alloc: Global, server: &str) -> Result<UserRules, OutOfMemory>
        ensures server { IfOk result (λ rules. rules.server ≡ server.now) }
        ensures none { IfOk result (λ rules. rules.edited ≡ empty) }
    {
        Ok(UserRules {
            server: String::from_str(alloc, server)?,
            kept: HashMap::new(alloc),
        })
    }

    /// The name of the homeserver.
    pub fn server(&self) -> &str
        ensures { result.now ≡ self.now.server }
    {
        self.server.as_str()
    }

    /// Remembers a user, if it's a local one: makes the predefined rules of one of whom none are
    /// kept, so that an edit can be applied.
    pub fn remember(&mut self, alloc: Global, user: &UserId) -> Result<(), OutOfMemory>
        ensures server { self.new.server ≡ self.old.server }
        ensures edited { self.new.edited ≡ self.old.edited }
        ensures kept { OnOk result (is_local self.old.server user.now ≡ true
            → set.contains self.new.capacity user.now ≡ true) }
        ensures grows { (other : List ℕ) → set.contains self.old.capacity other ≡ true
            → set.contains self.new.capacity other ≡ true }
    {
        if user.localpart_on(self.server.as_str()).is_none() {
            return Ok(());
        }
        enter(&mut self.kept, alloc, self.server.as_str(), user)
    }

    /// The rules of a user who edited them.
    pub fn rules(&self, user: &UserId) -> Option<&Ruleset>
        ensures { option_copied result ≡ get self.now.edited user.now }
    {
        match self.kept.get(user) {
            Some(kept) => kept.edited(),
            None => None,
        }
    }

    /// Plans an edit of a local user's rules, or refuses it. Where none are kept the predefined
    /// ones are made for this call alone.
    pub fn plan(&self, alloc: Global, user: &UserId, edit: &Edit) -> Result<EditPlan, EditError>
        requires local { is_local self.now.server user.now ≡ true }
        requires valid { is_valid_edit edit.now ≡ true }
        ensures refused { let rules = rules_among self.now.server self.now.edited user.now in
            MatchResult result (λ _. refusal_of_edit rules edit.now ≡ None)
            (Tells (refusal_of_edit rules edit.now)) }
        ensures planned { IfOk result
            (IsPlanOf edit.now (rules_among self.now.server self.now.edited user.now)) }
    {
        if let Some(kept) = self.kept(user) {
            return prepare(alloc, kept, edit);
        }
        let rules = predefined(alloc, user, self.server.as_str())?;
        prepare(alloc, &rules, edit)
    }

    /// Carries out a plan that was made for the rules of a user who is remembered. Takes no memory.
    pub fn apply(&mut self, user: &UserId, plan: EditPlan)
        requires capacity { set.contains self.old.capacity user.now ≡ true }
        requires made_for { is_made_for (rules_among self.old.server self.old.edited user.now) plan
            ≡ true }
        ensures server { self.new.server ≡ self.old.server }
        ensures edited { self.new.edited ≡ insert self.old.edited user.now
            (planned plan (rules_among self.old.server self.old.edited user.now)) }
        ensures capacity { self.new.capacity ≡ self.old.capacity }
    {
        match self.kept.get_mut(user) {
            Some(kept) => kept.apply(plan),
            None => unreachable!(),
        }
    }

    /// What the user's rules say of an event in a room of this state after it; nothing where it
    /// isn't judged for the user.
    pub fn verdict(
        &self,
        alloc: Global,
        event: &Event,
        user: &UserId,
        view: &RoomView,
        scratch: &mut Scratch,
    ) -> Result<Option<Verdict>, OutOfMemory>
        ensures { IfOk result (λ verdict. verdict
            ≡ verdict_in self.now.server (rules_among self.now.server self.now.edited) view.now
            event.now user.now) }
    {
        let server = self.server.as_str();
        if user.localpart_on(server).is_none() {
            return Ok(None);
        }
        if let Some(rules) = self.kept(user) {
            return judge(alloc, event, user, server, rules, view, scratch);
        }
        let rules = predefined(alloc, user, server)?;
        judge(alloc, event, user, server, &rules, view, scratch)
    }

    // The rules that are kept of a user: where there are none, the user's are the predefined ones.
    fn kept(&self, user: &UserId) -> Option<&Ruleset>
        ensures { rules_among self.now.server self.now.edited user.now
            ≡ unwrap_or (option_copied result) (predefined_rules self.now.server user.now) }
    {
        match self.kept.get(user) {
            Some(kept) => Some(&kept.rules),
            None => None,
        }
    }
}

impl KeptRules {
    // The rules, where the user edited them.
    fn edited(&self) -> Option<&Ruleset>
        ensures { option_copied result ≡ shown_rules self.now }
    {
        if !self.edited {
            return None;
        }
        Some(&self.rules)
    }

    // Carries a plan out that was made for these rules. Takes no memory.
    fn apply(&mut self, plan: EditPlan)
        requires { is_made_for self.old.rules plan ≡ true }
        ensures rules { self.new.rules ≡ planned plan self.old.rules }
        ensures edited { self.new.edited ≡ true }
    {
        mx_edit::apply(&mut self.rules, plan);
        self.edited = true;
    }
}

// Makes the predefined rules of a local user of whom none are kept.
fn enter(
    kept: &mut HashMap<UserId, KeptRules>,
    alloc: Global,
    server: &str,
    user: &UserId,
) -> Result<(), OutOfMemory>
    requires { is_local server.now user.now ≡ true }
    ensures keeps { AreKept server.now kept.old.entries
        → KeepsRules server.now kept.old.entries kept.new.entries }
    ensures entered { OnOk result (set.contains (users_in kept.new.entries) user.now ≡ true) }
{
    if kept.contains_key(user) {
        return Ok(());
    }
    let rules = predefined(alloc, user, server)?;
    let rules = KeptRules {
        rules,
        edited: false,
    };
    kept.insert(user.copied(alloc)?, rules)?;
    Ok(())
}

/// Remembers the rules of the user whom an event makes a member, if that is a local user.
pub(crate) fn remember_named(
    alloc: Global,
    event: &Event,
    rules: &mut UserRules,
) -> Result<(), OutOfMemory>
    ensures server { rules.new.server ≡ rules.old.server }
    ensures edited { rules.new.edited ≡ rules.old.edited }
{
    let Some((named, _)) = event.membership() else {
        return Ok(());
    };
    match UserId::read(alloc, named) {
        Ok(user) => rules.remember(alloc, &user),
        Err(IdError::BadId) => Ok(()),
        Err(IdError::OutOfMemory) => Err(OutOfMemory),
    }
}
