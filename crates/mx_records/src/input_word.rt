ghost use Rattle.std.specs.Prelude.{◌≡◌, true};
ghost use Rattle.mx_json.specs.Json.{is_valid};
ghost use Rattle.mx_records.specs.InputWords.{input_word_named, input_word_in};

use mx_json::Json;

/// The word of an input, whether the input is built or not.
#[derive(Clone, Copy, Debug, PartialEq, Eq)]
pub enum InputWord {
    /// `event`: an event of a room.
    Event,
    /// `rule_put`: a push rule is made or moved.
    RulePut,
    /// `rule_delete`: a push rule is deleted.
    RuleDelete,
    /// `rule_enable`: a push rule is enabled or disabled.
    RuleEnable,
    /// `rule_actions`: a push rule gets other actions.
    RuleActions,
    /// `receipt`: a user read up to an event.
    Receipt,
    /// `pusher`: a pusher is set or removed.
    Pusher,
}

impl InputWord {
    /// The word that a text spells; `None` exactly where it spells none.
    #[tactic(auto, unfolding(crate::specs::InputWords::input_word_named))]
    pub fn named(text: &str) -> Option<InputWord>
        ensures { result ≡ input_word_named text.now }
    {
        match text {
            "event" => Some(InputWord::Event),
            "rule_put" => Some(InputWord::RulePut),
            "rule_delete" => Some(InputWord::RuleDelete),
            "rule_enable" => Some(InputWord::RuleEnable),
            "rule_actions" => Some(InputWord::RuleActions),
            "receipt" => Some(InputWord::Receipt),
            "pusher" => Some(InputWord::Pusher),
            _ => None,
        }
    }

    /// The word that an object has under `cmd`; `None` exactly where it has none of an input.
    pub fn of(json: &Json) -> Option<InputWord>
        requires { is_valid json.now ≡ true }
        ensures { result ≡ input_word_in json.now }
    {
        InputWord::named(json.text_at("cmd")?)
    }
}
