ghost use Rattle.std.specs.Prelude.{◌≡◌, ◌≢◌, ◌<◌, ◌↔◌, Ok, IfOk, IsAscii, IsTrue, EachIndex, map};
ghost use Rattle.std.specs.Prelude.{slice_index};
ghost use Rattle.std.specs.Char.{to_ascii_lowercase};
ghost use Rattle.mx_json.specs.Folded.{folded};
ghost use Rattle.mx_glob.specs.FoldedPattern.{folded_pattern};
ghost use Rattle.mx_glob.specs.Glob.{star, question, Matches};
ghost use Rattle.mx_glob.specs.Words.{WordMatches};

use mx_glob::{Glob, Scratch};
use mx_json::{JsonText, Meter, OutOfMemory};
use std::alloc::Global;
use std::marker::Model;

/// The pattern of an event_match condition. One that is ASCII and has no `*` and no `?` is kept as
/// it stands too: an ASCII text is compared with that, and not folded.
#[derive(Drop)]
pub struct TextPattern {
    glob: Glob,
    spelled: Option<JsonText>,
}

// Contracts see the characters of the folded pattern.
impl Model for TextPattern {
    ghost use Rattle.std.specs.Prelude.{List, ℕ, IfSome};
    ghost use Rattle.mx_cond.specs.Pattern.{Spells};

    ghost Value = { List ℕ };

    ghost view = { λ p. p.glob };

    ghost invariant = { λ p. IfSome p.spelled (λ text. Spells text p.glob) };
}

impl TextPattern {
    /// The pattern that a text is, of which this is the glob.
    pub fn new(alloc: Global, glob: Glob, text: &str) -> Result<TextPattern, OutOfMemory>
        requires { folded_pattern text.now ≡ Ok glob }
        ensures { IfOk result (λ pattern. pattern ≡ glob) }
    {
        if !is_itself(text) {
            return Ok(TextPattern {
                glob,
                spelled: None,
            });
        }
        let spelled = Some(JsonText::read(alloc, text)?);
        Ok(TextPattern { glob, spelled })
    }

    /// An equal pattern of its own.
    pub fn copied(&self, alloc: Global) -> Result<TextPattern, OutOfMemory>
        ensures { IfOk result (λ pattern. pattern ≡ self.now) }
    {
        let glob = self.glob.copied(alloc)?;
        let spelled = copied_text(alloc, &self.spelled)?;
        Ok(TextPattern { glob, spelled })
    }

    /// Whether it matches the whole of a text, which may be known to be ASCII.
    pub fn is_whole(
        &self,
        text: &str,
        known_ascii: bool,
        scratch: &mut Scratch,
    ) -> Result<bool, OutOfMemory>
        requires { IsTrue known_ascii → IsAscii text.now }
        ensures { IfOk result (λ is. IsTrue is ↔ Matches self.now (folded text.now)) }
    {
        let Some(spelled) = &self.spelled else {
            return self.glob.whole_text(text, scratch, &mut Meter::new());
        };
        if !is_ascii(text, known_ascii) {
            return self.glob.whole_text(text, scratch, &mut Meter::new());
        }
        Ok(is_same(text, spelled.as_str()))
    }

    /// Whether it matches a word of a text.
    pub fn is_word_of(&self, text: &str, scratch: &mut Scratch) -> Result<bool, OutOfMemory>
        ensures { IfOk result (λ is. IsTrue is ↔ WordMatches self.now (folded text.now)) }
    {
        self.glob.word_of_text(text, scratch, &mut Meter::new())
    }
}

fn copied_text(alloc: Global, text: &Option<JsonText>) -> Result<Option<JsonText>, OutOfMemory>
    ensures { IfOk result (λ copy. copy ≡ text.now) }
{
    match text {
        Some(text) => Ok(Some(text.copied(alloc)?)),
        None => Ok(None),
    }
}

fn is_ascii(text: &str, known: bool) -> bool
    requires { IsTrue known → IsAscii text.now }
    ensures { IsTrue result → IsAscii text.now }
{
    known || text.is_ascii()
}

// Whether two texts are equal but for the case of ASCII letters. Most that are so are equal as they
// stand.
fn is_same(text: &str, spelled: &str) -> bool
    ensures { IsTrue result
        ↔ (map to_ascii_lowercase text.now ≡ map to_ascii_lowercase spelled.now) }
{
    text == spelled || text.eq_ignore_ascii_case(spelled)
}

// Whether a pattern is ASCII and has no `*` and no `?`.
fn is_itself(pattern: &str) -> bool
    ensures { IsTrue result → EachIndex pattern.now (λ k. (slice_index pattern.now k < 128)
        × (slice_index pattern.now k ≢ star) × (slice_index pattern.now k ≢ question)) }
{
    pattern
        .as_bytes()
        .iter()
        .all(|byte| byte.is_ascii() && *byte != b'*' && *byte != b'?')
}
