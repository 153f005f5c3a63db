ghost use Rattle.std.specs.Prelude.{◌≡◌, option_map, IfOk};
ghost use Rattle.std.specs.Option.{option_copied};
ghost use Rattle.mx_rule.specs.Actions.{highlight_in, says_highlight, says_notify, sound_in};
ghost use Rattle.mx_rule.specs.Actions.{sound_of, meaning_of};

use crate::action::Action;
use mx_json::{JsonText, OutOfMemory};
use std::alloc::Global;

/// What is said of an event for a user.
#[derive(Drop)]
pub struct Verdict {
    /// Whether it notifies.
    pub notify: bool,
    /// Whether it is highlighted.
    pub highlight: bool,
    /// The sound that it makes, if any.
    pub sound: Option<JsonText>,
}

impl Verdict {
    /// What these actions mean together: one of them is `notify`, and of a tweak that is given more
    /// than once the last decides.
    ///
    /// # Errors
    ///
    /// `OutOfMemory` where the allocator has none.
    pub fn by(alloc: Global, actions: &[Action]) -> Result<Verdict, OutOfMemory>
        ensures { IfOk result (λ verdict. verdict ≡ meaning_of actions.now) }
    {
        let sound = match sound_of(actions) {
            Some(sound) => Some(sound.copied(alloc)?),
            None => None,
        };
        Ok(Verdict {
            notify: says_notify(actions),
            highlight: says_highlight(actions),
            sound,
        })
    }
}

fn says_notify(actions: &[Action]) -> bool
    ensures { result ≡ says_notify actions.now }
{
    actions
        .iter()
        .any(|action| matches!(action, Action::Notify))
}

fn says_highlight(actions: &[Action]) -> bool
    ensures { result ≡ says_highlight actions.now }
{
    let mut said = None;
    for action in actions {
        said = highlight_in(action).or(said);
    }
    said.unwrap_or(false)
}

// What a tweak `highlight` says.
fn highlight_in(action: &Action) -> Option<bool>
    ensures { result ≡ highlight_in action.now }
{
    match action {
        Action::Highlight(on) => Some(*on),
        _ => None,
    }
}

fn sound_of(actions: &[Action]) -> Option<&JsonText>
    ensures { option_copied result ≡ sound_of actions.now }
{
    let mut said = None;
    for action in actions {
        said = sound_in(action).or(said);
    }
    said.unwrap_or(None)
}

// What a tweak `sound` says: a sound, or that there is none.
fn sound_in(action: &Action) -> Option<Option<&JsonText>>
    ensures { option_map option_copied result ≡ sound_in action.now }
{
    match action {
        Action::Sound(sound) => Some(sound.as_ref()),
        _ => None,
    }
}
