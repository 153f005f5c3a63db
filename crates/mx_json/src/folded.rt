ghost use Rattle.std.specs.Prelude.{◌≡◌, ◌^◌, ◌<◌, ◌≤◌, ◌↔◌, [], ◌++◌, length, slice_get, IfOk};
ghost use Rattle.std.specs.Prelude.{OnOk, OnErr, IsAscii, IsTrue};
ghost use Rattle.ucd_case.specs.CaseFolding.{full_fold};
ghost use Rattle.mx_json.specs.Folded.{folded, next_count};

use crate::memory::OutOfMemory;
use crate::meter::Meter;
use std::alloc::{AllocError, Global};
use std::fmt;
use std::marker::Model;
use ucd_case::full_folding;

/// A text after Unicode full case folding, read one character at a time, each read counted.
#[derive(Drop)]
pub struct Folded {
    characters: Vec<char>,
}

// Contracts see the characters of the folded text.
impl Model for Folded {
    ghost use Rattle.std.specs.Prelude.{List, ℕ};

    ghost Value = { List ℕ };

    ghost view = { λ f. f.characters.items };
}

// The length alone: its characters are read by `at`, which counts.
impl fmt::Debug for Folded {
    fn fmt<W: fmt::Write>(&self, f: &mut fmt::Formatter<W>) -> fmt::Result {
        f.debug_struct("Folded").field("len", &self.len()).finish()
    }
}

impl Folded {
    /// A folded text with no character, to be filled by `refill`; it takes no memory yet.
    pub fn new(alloc: Global) -> Folded
        ensures { result ≡ [] }
    {
        Folded {
            characters: Vec::new(alloc),
        }
    }

    /// The text with full case folding applied (The Unicode Standard, section 3.13, toCasefold).
    ///
    /// # Errors
    ///
    /// `OutOfMemory` alone.
    pub fn of(alloc: Global, text: &str) -> Result<Folded, OutOfMemory>
        ensures { IfOk result (λ f. f ≡ folded text.now) }
    {
        let mut folded = Folded::new(alloc);
        folded.refill(text)?;
        Ok(folded)
    }

    /// Makes this the folded text of `text`, in the memory that it has already, where that is
    /// enough.
    ///
    /// # Errors
    ///
    /// `OutOfMemory` alone; this is then the folded text with no character.
    pub fn refill(&mut self, text: &str) -> Result<(), OutOfMemory>
        ensures refilled { OnOk result (self.new ≡ folded text.now) }
        ensures emptied { OnErr result (self.new ≡ []) }
    {
        if let Err(error) = fold_into(&mut self.characters, text) {
            self.characters.clear();
            return Err(error.into());
        }
        Ok(())
    }

    /// An equal folded text of its own. No character is read, so none is counted.
    ///
    /// # Errors
    ///
    /// `OutOfMemory` alone.
    pub fn copied(&self, alloc: Global) -> Result<Folded, OutOfMemory>
        ensures { IfOk result (λ f. f ≡ self.now) }
    {
        let mut characters = Vec::new(alloc);
        characters.extend_from_slice(self.characters.as_slice())?;
        Ok(Folded { characters })
    }

    /// How many characters the folded text has.
    #[inline]
    pub fn len(&self) -> usize
        ensures len { result ≡ length self.now }
        ensures in_memory { length self.now < 2 ^ 61 }
    {
        self.characters.as_slice().len()
    }

    /// Whether the folded text has no character.
    pub fn is_empty(&self) -> bool
        ensures { IsTrue result ↔ (length self.now ≡ 0) }
    {
        self.characters.is_empty()
    }

    /// The character at place `k`, from 0, and none past the end. The meter counts one read either
    /// way: there is no other way to a character.
    #[inline]
    pub fn at(&self, k: usize, meter: &mut Meter) -> Option<char>
        ensures character { result ≡ slice_get self.now k }
        ensures counted { meter.new ≡ next_count meter.old }
        ensures never_falls { meter.old ≤ meter.new }
    {
        meter.rise();
        self.characters.get(k).copied()
    }
}

// Most texts are ASCII, which needs no table and no decoding.
fn fold_into(target: &mut Vec<char>, text: &str) -> Result<(), AllocError>
    ensures { OnOk result (target.new.items ≡ folded text.now) }
{
    target.clear();
    if text.is_ascii() {
        push_lowered(target, text)
    } else {
        push_each_folded(target, text)
    }
}

fn push_lowered(characters: &mut Vec<char>, text: &str) -> Result<(), AllocError>
    requires { IsAscii text.now }
    ensures { OnOk result (characters.new.items ≡ characters.old.items ++ folded text.now) }
{
    characters.extend(
        text.bytes()
            .map(|byte| char::from(byte.to_ascii_lowercase())),
    )
}

fn push_each_folded(characters: &mut Vec<char>, text: &str) -> Result<(), AllocError>
    ensures { OnOk result (characters.new.items ≡ characters.old.items ++ folded text.now) }
{
    for character in text.chars() {
        push_one_folded(characters, character)?;
    }
    Ok(())
}

#[inline]
fn push_one_folded(characters: &mut Vec<char>, character: char) -> Result<(), AllocError>
    ensures { OnOk result (characters.new.items ≡ characters.old.items ++ full_fold character) }
{
    if character.is_ascii() {
        characters.push(character.to_ascii_lowercase())?;
        return Ok(());
    }
    match full_folding(character) {
        [] => Ok(characters.push(character)?),
        folding => characters.extend_from_slice(folding),
    }
}
