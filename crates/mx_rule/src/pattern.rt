ghost use Rattle.std.specs.Prelude.{◌≡◌, ◌↔◌, IfOk, IsTrue};
ghost use Rattle.mx_json.specs.Gives.{Gives};
ghost use Rattle.mx_rule.specs.Rule.{read_pattern, IsWordOfBody};

use mx_cond::body_of;
use mx_event::Event;
use mx_glob::{Glob, GlobError, Scratch};
use mx_json::{JsonText, Meter, OutOfMemory};
use std::alloc::Global;
use std::marker::Model;

/// The pattern of a content rule, of at most 1,024 bytes, seen as its text. It is folded when it is
/// read.
#[derive(Drop)]
pub struct Pattern {
    text: JsonText,
    glob: Glob,
}

impl Model for Pattern {
    ghost use Rattle.std.specs.Prelude.{◌≡◌, ℕ, List, Ok};
    ghost use Rattle.mx_glob.specs.FoldedPattern.{folded_pattern};

    ghost Value = { List ℕ };

    ghost view = { λ pattern. pattern.text };

    ghost invariant = { λ pattern. folded_pattern pattern.text ≡ Ok pattern.glob };
}

impl Pattern {
    /// The pattern that a text is.
    ///
    /// # Errors
    ///
    /// `PatternTooLong` exactly where the text has more than 1,024 bytes, and `OutOfMemory`.
    pub fn read(alloc: Global, text: &str) -> Result<Pattern, GlobError>
        ensures { Gives GlobError.OutOfMemory result (read_pattern text.now) }
    {
        let glob = Glob::read(alloc, text)?;
        let text = JsonText::read(alloc, text)?;
        Ok(Pattern { text, glob })
    }

    /// The text.
    pub fn as_str(&self) -> &str
        ensures { result.now ≡ self.now }
    {
        self.text.as_str()
    }

    /// Whether the pattern matches a word of the event's `content.body`, case apart
    /// (Client-Server API v1.11, "Push rules", content rules). Only the scratch takes memory,
    /// for a body that isn't in it.
    ///
    /// # Errors
    ///
    /// `OutOfMemory` where the allocator has none.
    pub fn is_word_of_body(&self, event: &Event, scratch: &mut Scratch) -> Result<bool, OutOfMemory>
        ensures { IfOk result (λ is. IsTrue is ↔ IsWordOfBody self.now event.now) }
    {
        let Some(body) = body_of(event) else {
            return Ok(false);
        };
        self.glob.word_of_text(body, scratch, &mut Meter::new())
    }

    /// An equal pattern of its own. It isn't folded again.
    ///
    /// # Errors
    ///
    /// `OutOfMemory` where the allocator has none.
    pub fn copied(&self, alloc: Global) -> Result<Pattern, OutOfMemory>
        ensures { IfOk result (λ pattern. pattern ≡ self.now) }
    {
        let glob = self.glob.copied(alloc)?;
        let text = self.text.copied(alloc)?;
        Ok(Pattern { text, glob })
    }
}
