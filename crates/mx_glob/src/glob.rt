ghost use Rattle.std.specs.Prelude.{◌≡◌, ◌+◌, ◌*◌, ◌≤◌, ◌↔◌, length, IfOk, IsTrue};
ghost use Rattle.mx_json.specs.Gives.{Gives};
ghost use Rattle.mx_json.specs.Folded.{folded, RisesAtMost};
ghost use Rattle.mx_glob.specs.Automaton.{IsExact};
ghost use Rattle.mx_glob.specs.Glob.{Matches};
ghost use Rattle.mx_glob.specs.FoldedPattern.{folded_pattern};
ghost use Rattle.mx_glob.specs.Words.{WordMatches};

use crate::error::GlobError;
use crate::held::Held;
use crate::place::agrees;
use crate::rest::{End, leads_on, split_star};
use crate::scratch::Scratch;
use crate::search::has_word;
use crate::skips::{has_some, is_literal};
use crate::word::find_word;
use mx_json::{Folded, Meter, OutOfMemory};
use std::alloc::Global;
use std::marker::Model;

/// The most bytes of a pattern.
const MOST_BYTES: usize = 1024;

/// A glob pattern (Client-Server API v1.11, "Conditions for push rules", event_match): `*` matches
/// any number of characters, `?` one, and every other character itself, case apart.
#[derive(Drop)]
pub struct Glob {
    pattern: Folded,
    // Whether the pattern has no `*` and no `?`.
    is_literal: bool,
    // Whether it also has a character: then a word match searches for it as it stands.
    is_name: bool,
}

// Contracts see the characters of the folded pattern.
impl Model for Glob {
    ghost use Rattle.std.specs.Prelude.{List, ℕ, ◌≤◌, length, IsTrue};
    ghost use Rattle.mx_glob.specs.Search.{IsLiteral, IsName};
    ghost use Rattle.mx_glob.specs.declared.held.TheConstants.{MOST_CHARACTERS};

    ghost Value = { List ℕ };

    ghost view = { λ g. g.pattern };

    ghost invariant = { λ g. (length g.pattern ≤ MOST_CHARACTERS)
        × (IsTrue g.is_literal → IsLiteral g.pattern)
        × (IsTrue g.is_name → IsName g.pattern) };
}

impl Glob {
    /// The glob of a pattern.
    ///
    /// # Errors
    ///
    /// `PatternTooLong` exactly where the pattern has more than 1,024 bytes, and `OutOfMemory`.
    pub fn read(alloc: Global, pattern: &str) -> Result<Glob, GlobError>
        ensures { Gives GlobError.OutOfMemory result (folded_pattern pattern.now) }
    {
        if pattern.len() > MOST_BYTES {
            return Err(GlobError::PatternTooLong);
        }
        let pattern = Folded::of(alloc, pattern)?;
        let is_literal = is_literal(&pattern);
        let is_name = is_literal && has_some(&pattern);
        Ok(Glob {
            pattern,
            is_literal,
            is_name,
        })
    }

    /// An equal glob of its own. Its pattern isn't folded again, and no character of it is read.
    ///
    /// # Errors
    ///
    /// `OutOfMemory` alone.
    pub fn copied(&self, alloc: Global) -> Result<Glob, OutOfMemory>
        ensures { IfOk result (λ glob. glob ≡ self.now) }
    {
        let pattern = self.pattern.copied(alloc)?;
        Ok(Glob {
            pattern,
            is_literal: self.is_literal,
            is_name: self.is_name,
        })
    }

    /// Whether the glob matches the whole value. It takes no memory. With p characters of the
    /// folded pattern and v of the value it reads at most (p + 1)(v + 1) characters, and at most
    /// 2(v + 1) + p where the pattern has no `?`: each call of `Folded::at` on the value counts,
    /// and the pattern is read once, into the scratch. A pattern without `*` and `?` isn't copied:
    /// there each call of `Folded::at` on it counts too.
    pub fn whole(&self, value: &Folded, scratch: &mut Scratch, meter: &mut Meter) -> bool
        ensures matches { IsTrue result ↔ Matches self.now value.now }
        ensures reads { RisesAtMost
            ((length self.now + 1) * (length value.now + 1))
            meter.old
            meter.new }
        ensures exact_reads { IsExact self.now
            → RisesAtMost (2 * (length value.now + 1) + length self.now) meter.old meter.new }
    {
        self.whole_in(value, &mut scratch.held, meter)
    }

    /// Whether the glob matches a word of the value: some part of it, the empty one included, with
    /// no character of `A-Z a-z 0-9 _` just before and just after. It takes no memory. With p
    /// characters of the folded pattern and v of the value it reads at most (p + 1)(v + 1), and at
    /// most 2(v + 1) + p where the pattern has no `?`: each call of `Folded::at` on the value
    /// counts, and the pattern is read once, into the scratch.
    pub fn word(&self, value: &Folded, scratch: &mut Scratch, meter: &mut Meter) -> bool
        ensures matches { IsTrue result ↔ WordMatches self.now value.now }
        ensures reads { RisesAtMost
            ((length self.now + 1) * (length value.now + 1))
            meter.old
            meter.new }
        ensures exact_reads { IsExact self.now
            → RisesAtMost (2 * (length value.now + 1) + length self.now) meter.old meter.new }
    {
        self.word_in(value, &mut scratch.held, meter)
    }

    /// The same as `whole`, on the folding of a text, which the scratch keeps.
    ///
    /// # Errors
    ///
    /// `OutOfMemory` where there is none for the text and its folding.
    pub fn whole_text(
        &self,
        text: &str,
        scratch: &mut Scratch,
        meter: &mut Meter,
    ) -> Result<bool, OutOfMemory>
        ensures matches { IfOk result
            (λ matches. IsTrue matches ↔ Matches self.now (folded text.now)) }
        ensures reads { RisesAtMost
            ((length self.now + 1) * (length (folded text.now) + 1))
            meter.old
            meter.new }
        ensures exact_reads { IsExact self.now
            → RisesAtMost
            (2 * (length (folded text.now) + 1) + length self.now)
            meter.old
            meter.new }
    {
        scratch.texts.ask(text)?;
        Ok(self.whole_in(scratch.texts.folding(), &mut scratch.held, meter))
    }

    /// The same as `word`, on the folding of a text, which the scratch keeps.
    ///
    /// # Errors
    ///
    /// `OutOfMemory` where there is none for the text and its folding.
    pub fn word_of_text(
        &self,
        text: &str,
        scratch: &mut Scratch,
        meter: &mut Meter,
    ) -> Result<bool, OutOfMemory>
        ensures matches { IfOk result
            (λ matches. IsTrue matches ↔ WordMatches self.now (folded text.now)) }
        ensures reads { RisesAtMost
            ((length self.now + 1) * (length (folded text.now) + 1))
            meter.old
            meter.new }
        ensures exact_reads { IsExact self.now
            → RisesAtMost
            (2 * (length (folded text.now) + 1) + length self.now)
            meter.old
            meter.new }
    {
        scratch.texts.ask(text)?;
        Ok(self.word_in(scratch.texts.folding(), &mut scratch.held, meter))
    }

    fn whole_in(&self, value: &Folded, held: &mut Held, meter: &mut Meter) -> bool
        ensures matches { IsTrue result ↔ Matches self.now value.now }
        ensures reads { RisesAtMost
            ((length self.now + 1) * (length value.now + 1))
            meter.old
            meter.new }
        ensures exact_reads { IsExact self.now
            → RisesAtMost (2 * (length value.now + 1) + length self.now) meter.old meter.new }
    {
        if self.is_literal {
            return equals(&self.pattern, value, meter);
        }
        held.hold(&self.pattern, meter);
        let pattern = &held.characters[..self.pattern.len()];
        whole_of(pattern, held.falls.as_mut_slice(), value, meter)
    }

    fn word_in(&self, value: &Folded, held: &mut Held, meter: &mut Meter) -> bool
        ensures matches { IsTrue result ↔ WordMatches self.now value.now }
        ensures reads { RisesAtMost
            ((length self.now + 1) * (length value.now + 1))
            meter.old
            meter.new }
        ensures exact_reads { IsExact self.now
            → RisesAtMost (2 * (length value.now + 1) + length self.now) meter.old meter.new }
    {
        held.hold(&self.pattern, meter);
        let pattern = &held.characters[..self.pattern.len()];
        if self.is_name {
            return has_word(pattern, held.falls.as_mut_slice(), value, meter);
        }
        word_of(pattern, held.falls.as_mut_slice(), value, meter)
    }
}

/// Whether the value is the pattern, character by character.
fn equals(pattern: &Folded, value: &Folded, meter: &mut Meter) -> bool
    ensures equal { IsTrue result ↔ (value.now ≡ pattern.now) }
    ensures reads { RisesAtMost
        ((length pattern.now + 1) * (length value.now + 1))
        meter.old
        meter.new }
    ensures exact_reads { RisesAtMost (2 * length value.now) meter.old meter.new }
{
    if pattern.len() != value.len() {
        return false;
    }
    for k in 0..pattern.len() {
        if pattern.at(k, meter) != value.at(k, meter) {
            return false;
        }
    }
    true
}

/// Whether the pattern matches the whole value.
fn whole_of(pattern: &[char], falls: &mut [usize], value: &Folded, meter: &mut Meter) -> bool
    requires room { length pattern.now ≤ length falls.old }
    ensures matches { IsTrue result ↔ Matches pattern.now value.now }
    ensures reads { RisesAtMost
        ((length pattern.now + 1) * length value.now + 1)
        meter.old
        meter.new }
    ensures exact_reads { IsExact pattern.now
        → RisesAtMost (2 * length value.now + 1) meter.old meter.new }
    ensures same_room { length falls.new ≡ length falls.old }
{
    let Some((first, rest)) = split_star(pattern) else {
        if pattern.len() != value.len() {
            return false;
        }
        return agrees(pattern, value, 0, meter);
    };
    if first.len() > value.len() {
        return false;
    }
    if !agrees(first, value, 0, meter) {
        return false;
    }
    leads_on(rest, falls, value, first.len(), End::Text, meter)
}

/// Whether the pattern matches a word of the value.
fn word_of(pattern: &[char], falls: &mut [usize], value: &Folded, meter: &mut Meter) -> bool
    requires room { length pattern.now ≤ length falls.old }
    ensures matches { IsTrue result ↔ WordMatches pattern.now value.now }
    ensures reads { RisesAtMost
        ((length pattern.now + 1) * length value.now + 1)
        meter.old
        meter.new }
    ensures exact_reads { IsExact pattern.now
        → RisesAtMost (2 * length value.now + 2) meter.old meter.new }
    ensures same_room { length falls.new ≡ length falls.old }
{
    let Some((first, rest)) = split_star(pattern) else {
        return find_word(pattern, falls, value, true, meter).is_some();
    };
    if first.is_empty() {
        return leads_on(rest, falls, value, 0, End::Word, meter);
    }
    match find_word(first, falls, value, false, meter) {
        None => false,
        Some(place) => leads_on(rest, falls, value, place + first.len(), End::Word, meter),
    }
}
