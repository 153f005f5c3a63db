ghost use Rattle.std.specs.Prelude.{◌≡◌, true};
ghost use Rattle.mx_json.specs.Json.{is_valid};
ghost use Rattle.mx_lines.specs.QuestionWords.{question_word_named, question_word_in};

use mx_json::Json;

/// The word of a command that is no input, whether the command is built or not.
#[derive(Clone, Copy, Debug, PartialEq, Eq)]
pub enum QuestionWord {
    Counts,
    Rules,
    Pushers,
    Turn,
    Stat,
    Checkpoint,
}

impl QuestionWord {
    /// The word that a text spells; `None` exactly where it spells none.
    #[tactic(auto, unfolding(crate::specs::QuestionWords::question_word_named))]
    fn named(text: &str) -> Option<QuestionWord>
        ensures { result ≡ question_word_named text.now }
    {
        match text {
            "counts" => Some(QuestionWord::Counts),
            "rules" => Some(QuestionWord::Rules),
            "pushers" => Some(QuestionWord::Pushers),
            "turn" => Some(QuestionWord::Turn),
            "stat" => Some(QuestionWord::Stat),
            "checkpoint" => Some(QuestionWord::Checkpoint),
            _ => None,
        }
    }

    /// The word that a line has under `cmd`; `None` exactly where it has none of these.
    pub fn of(line: &Json) -> Option<QuestionWord>
        requires { is_valid line.now ≡ true }
        ensures { result ≡ question_word_in line.now }
    {
        QuestionWord::named(line.text_at("cmd")?)
    }
}
