ghost use Rattle.std.specs.Prelude.{◌≡◌, true, codes, IfOk};
ghost use Rattle.mx_json.specs.Json.{is_valid, text_at};
ghost use Rattle.mx_rule.specs.Actions.{action_of, is_on, is_true, setting_of, tweak_of, word_of};
ghost use Rattle.mx_rule.specs.declared.action.Action.TheVariants.{Sound};

use mx_json::{Json, JsonText, OutOfMemory};
use std::alloc::Global;

/// What one action of a rule does (Client-Server API v1.11, "Actions").
#[derive(Drop)]
pub enum Action {
    /// `notify`: the event notifies.
    Notify,
    /// Another text or tweak: nothing.
    Inert,
    /// The tweak `sound`; `None` where its value isn't a text.
    Sound(Option<JsonText>),
    /// The tweak `highlight`: on where it has no value, or the value true.
    Highlight(bool),
}

impl Action {
    /// What an action does that is this valid JSON value.
    ///
    /// # Errors
    ///
    /// `OutOfMemory` where the allocator has none.
    #[tactic(auto, unfolding(crate::specs::Actions::action_of))]
    pub fn read(alloc: Global, json: &Json) -> Result<Action, OutOfMemory>
        requires { is_valid json.now ≡ true }
        ensures { IfOk result (λ action. action ≡ action_of json.now) }
    {
        match json.as_text() {
            Some(word) => Ok(word_of(word)),
            None => setting_of(alloc, json),
        }
    }
}

fn word_of(word: &str) -> Action
    ensures { result ≡ word_of word.now }
{
    if word == "notify" {
        Action::Notify
    } else {
        Action::Inert
    }
}

fn setting_of(alloc: Global, json: &Json) -> Result<Action, OutOfMemory>
    requires { is_valid json.now ≡ true }
    ensures { IfOk result (λ action. action ≡ setting_of json.now) }
{
    match json.text_at("set_tweak") {
        Some(name) => tweak_of(alloc, name, json),
        None => Ok(Action::Inert),
    }
}

fn tweak_of(alloc: Global, name: &str, tweak: &Json) -> Result<Action, OutOfMemory>
    requires { is_valid tweak.now ≡ true }
    ensures { IfOk result (λ action. action ≡ tweak_of name.now tweak.now) }
{
    match name {
        "sound" => sound_of(alloc, tweak),
        "highlight" => Ok(Action::Highlight(is_on(tweak))),
        _ => Ok(Action::Inert),
    }
}

fn sound_of(alloc: Global, tweak: &Json) -> Result<Action, OutOfMemory>
    requires { is_valid tweak.now ≡ true }
    ensures { IfOk result (λ action. action ≡ Sound (text_at (codes "value") tweak.now)) }
{
    match tweak.text_at("value") {
        Some(name) => Ok(Action::Sound(Some(JsonText::read(alloc, name)?))),
        None => Ok(Action::Sound(None)),
    }
}

fn is_on(tweak: &Json) -> bool
    requires { is_valid tweak.now ≡ true }
    ensures { result ≡ is_on tweak.now }
{
    match tweak.member("value") {
        Some(value) => is_true(value),
        None => true,
    }
}

fn is_true(json: &Json) -> bool
    ensures { result ≡ is_true json.now }
{
    json.as_truth().unwrap_or(false)
}
